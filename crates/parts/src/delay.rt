// The delay before an ACK.
ghost use Rattle.std.specs.Prelude.{◌≡◌, ℕ, ◌%◌, ◌≢◌};
ghost use Rattle.parts.specs.Delays.{EachOnce, delay_at, delay_index, delay_of};

// 0 first, and each next is five times the last and 1, modulo 256.
#[rattlefmt::skip]
const DELAYS: [u8; 256] = [
    0, 1, 6, 31, 156, 13, 66, 75, 120, 89, 190, 183, 148, 229, 122, 99,
    240, 177, 118, 79, 140, 189, 178, 123, 104, 9, 46, 231, 132, 149, 234, 147,
    224, 97, 230, 127, 124, 109, 34, 171, 88, 185, 158, 23, 116, 69, 90, 195,
    208, 17, 86, 175, 108, 29, 146, 219, 72, 105, 14, 71, 100, 245, 202, 243,
    192, 193, 198, 223, 92, 205, 2, 11, 56, 25, 126, 119, 84, 165, 58, 35,
    176, 113, 54, 15, 76, 125, 114, 59, 40, 201, 238, 167, 68, 85, 170, 83,
    160, 33, 166, 63, 60, 45, 226, 107, 24, 121, 94, 215, 52, 5, 26, 131,
    144, 209, 22, 111, 44, 221, 82, 155, 8, 41, 206, 7, 36, 181, 138, 179,
    128, 129, 134, 159, 28, 141, 194, 203, 248, 217, 62, 55, 20, 101, 250, 227,
    112, 49, 246, 207, 12, 61, 50, 251, 232, 137, 174, 103, 4, 21, 106, 19,
    96, 225, 102, 255, 252, 237, 162, 43, 216, 57, 30, 151, 244, 197, 218, 67,
    80, 145, 214, 47, 236, 157, 18, 91, 200, 233, 142, 199, 228, 117, 74, 115,
    64, 65, 70, 95, 220, 77, 130, 139, 184, 153, 254, 247, 212, 37, 186, 163,
    48, 241, 182, 143, 204, 253, 242, 187, 168, 73, 110, 39, 196, 213, 42, 211,
    32, 161, 38, 191, 188, 173, 98, 235, 152, 249, 222, 87, 180, 133, 154, 3,
    16, 81, 150, 239, 172, 93, 210, 27, 136, 169, 78, 135, 164, 53, 10, 51,
];

// The delay at an index.
#[tactic(auto, using(crate::proofs::Delays::table_is), unfolding(crate::proofs::Delays::table, crate::proofs::Delays::walk))]
fn delay_at(index: u8) -> u8
    ensures value { result ≡ delay_at index }
{
    DELAYS[index as usize]
}

// Where the delay of a receiver for a message stands.
fn index_of(receiver: u32, message: u32) -> u8
    ensures value { result ≡ delay_index receiver message }
{
    let [receiver_low, ..] = receiver.to_le_bytes();
    let [message_low, ..] = message.to_le_bytes();
    receiver_low.wrapping_add(message_low)
}

// The delay of a receiver for a message. Two receivers whose low octets differ never draw the same one for one message.
#[tactic(auto, using(crate::proofs::Delays::delays_apart, crate::proofs::Delays::delays_once), unfolding(crate::specs::Delays::delay_of))]
pub fn delay(receiver: u32, message: u32) -> u8
    ensures value { result ≡ delay_of receiver message }
    ensures apart { (other : ℕ) → (other % 256 ≢ receiver % 256) → delay_of other message ≢ result }
    ensures once { EachOnce }
{
    delay_at(index_of(receiver, message))
}

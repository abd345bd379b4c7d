// The interface of a fragment store.
ghost use Rattle.std.specs.Prelude.{◌≡◌, length, is_ok, if◌then◌else◌};
ghost use Rattle.contents.specs.Contents.{Contents, Sound, is_held, string_at, total, vacant, with_row, with_string};
ghost use Rattle.contents.specs.Answers.{free_answer, fronted, get_answer, put_answer};
ghost use Rattle.store.specs.Faults.{causes};

use crate::fault::StoreFault;

// A map from row (0 to ROWS - 1) and number (1 to NUMBERS) to a string of 1 to `width` octets, at most `limit` of them.
// A refusal changes nothing, and a question changes nothing. What `contents` gives is all that a store means.
pub trait FragmentStore {
    ghost contents: { Self → Contents };

    // Adds a string at a row and a number that hold none.
    fn put(&mut self, row: u8, number: u16, octets: &[u8]) -> Result<(), StoreFault>
        ensures answer { causes result ≡ put_answer (contents self.old) row number octets.now }
        ensures after { contents self.new ≡ (if is_ok result then with_string (contents self.old) row number octets.now else contents self.old) };

    // Copies a string to the front of the buffer, and tells its length.
    fn get(&self, row: u8, number: u16, out: &mut [u8]) -> Result<usize, StoreFault>
        ensures answer { causes result ≡ get_answer (contents self.now) row number (length out.old) }
        ensures buffer { out.new ≡ (if is_ok result then fronted (string_at (contents self.now) row number) out.old else out.old) };

    // Removes the strings of a row.
    fn free(&mut self, row: u8) -> Result<(), StoreFault>
        ensures answer { causes result ≡ free_answer row }
        ensures after { contents self.new ≡ (if is_ok result then with_row (contents self.old) row vacant else contents self.old) };

    // The length of the string there, 0 if none is held.
    fn length(&self, row: u8, number: u16) -> u16
        ensures answer { result ≡ length (string_at (contents self.now) row number) };

    // Whether a string is held there.
    fn holds(&self, row: u8, number: u16) -> bool
        ensures answer { result ≡ is_held (contents self.now) row number }
    {
        self.length(row, number) > 0
    }

    // The longest string that the store takes.
    fn width(&self) -> u16
        ensures answer { result ≡ (contents self.now).width };

    // The most strings that the store holds.
    fn limit(&self) -> u16
        ensures answer { result ≡ (contents self.now).limit };

    // How many strings are held.
    fn held(&self) -> u16
        ensures answer { result ≡ total (contents self.now) };

    // The shape of every store, for code that knows no more than this interface.
    ghost sound: { (s : Self) → Sound (contents s) };
}

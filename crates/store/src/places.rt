// What every store in memory does alike. Each store says how it reads and writes one place; its calls are made of that here.
ghost use Rattle.std.specs.Prelude.{◌≡◌, true, [], length, ◌≢◌};
ghost use Rattle.contents.specs.Contents.{Contents, Sound, fits, string_at, total, with_string};

use crate::fault::StoreFault;
use crate::place::Place;
use crate::store::FragmentStore;
use protocol::{NUMBERS, ROWS};

// What a method requires, the calls below have tested.
pub(crate) trait Places {
    ghost contents: { Self → Contents };

    fn width(&self) -> u16
        ensures answer { result ≡ (contents self.now).width };

    fn limit(&self) -> u16
        ensures answer { result ≡ (contents self.now).limit };

    fn held(&self) -> u16
        ensures answer { result ≡ total (contents self.now) };

    // The string at a place, empty if none is held.
    fn string(&self, place: Place) -> &[u8]
        ensures answer { result.now ≡ string_at (contents self.now) place.row place.number };

    // Writes a string where none is held.
    fn fill(&mut self, place: Place, octets: &[u8])
        requires fits { fits (contents self.old) octets.now ≡ true }
        requires none { length (string_at (contents self.old) place.row place.number) ≡ 0 }
        requires room { total (contents self.old) ≢ (contents self.old).limit }
        ensures after { contents self.new ≡ with_string (contents self.old) place.row place.number octets.now };

    // Removes the string at a place, if one is held there.
    fn release(&mut self, place: Place)
        ensures after { contents self.new ≡ with_string (contents self.old) place.row place.number [] };

    ghost sound: { (s : Self) → Sound (contents s) };
}

// The length of the string at a place.
fn length_at<P: Places>(places: &P, place: Place) -> u16
    ensures answer { result ≡ length (string_at (P.Places.contents places.now) place.row place.number) }
{
    places.string(place).len() as u16
}

impl<P: Places> FragmentStore for P {
    ghost contents = { P.Places.contents };

    ghost sound = { P.Places.sound };

    fn put(&mut self, row: u8, number: u16, octets: &[u8]) -> Result<(), StoreFault> {
        let width = Places::width(self);
        if octets.is_empty() || octets.len() > width as usize {
            return Err(StoreFault::Fragment { width });
        }
        let limit = Places::limit(self);
        if Places::held(self) == limit {
            return Err(StoreFault::Full { limit });
        }
        let fault = StoreFault::Place { row, number };
        let place = Place::new(row, number).ok_or(fault)?;
        if !self.string(place).is_empty() {
            return Err(fault);
        }
        self.fill(place, octets);
        Ok(())
    }

    #[tactic(auto, using(contents::proofs::Strings::string_out))]
    fn get(&self, row: u8, number: u16, out: &mut [u8]) -> Result<usize, StoreFault> {
        let fault = StoreFault::Place { row, number };
        let place = Place::new(row, number).ok_or(fault)?;
        let string = self.string(place);
        if string.is_empty() {
            return Err(fault);
        }
        if out.len() < string.len() {
            return Err(StoreFault::Buffer {
                needed: length_at(self, place),
            });
        }
        out[..string.len()].copy_from_slice(string);
        Ok(string.len())
    }

    fn free(&mut self, row: u8) -> Result<(), StoreFault> {
        if row >= ROWS {
            return Err(StoreFault::Place { row, number: 0 });
        }
        for number in 1..=NUMBERS {
            self.release(Place { row, number });
        }
        Ok(())
    }

    #[tactic(auto, using(contents::proofs::Strings::string_out))]
    fn length(&self, row: u8, number: u16) -> u16 {
        Place::new(row, number).map_or(0, |place| length_at(self, place))
    }

    fn width(&self) -> u16 {
        Places::width(self)
    }

    fn limit(&self) -> u16 {
        Places::limit(self)
    }

    fn held(&self) -> u16 {
        Places::held(self)
    }
}

// How a grid reads and writes one place.
ghost use Rattle.store.specs.Meanings.{grid_of};
ghost use Rattle.contents.proofs.Gridding.{grid_sound};
ghost use Rattle.store.specs.Kept.{grid_kept};

use crate::grid::Grid;
use crate::place::Place;
use crate::places::Places;

impl Places for Grid {
    ghost contents = { grid_of };

    ghost sound = { λ g. grid_sound (grid_kept g) };

    fn width(&self) -> u16 {
        self.cells.width
    }

    fn limit(&self) -> u16 {
        protocol::MOST_STRINGS
    }

    fn held(&self) -> u16 {
        self.held
    }

    #[tactic(auto, using(contents::proofs::Gridding::grid_string))]
    fn string(&self, place: Place) -> &[u8] {
        let index = place.index();
        self.cells.front(index, self.lens[index])
    }

    #[tactic(auto, using(contents::proofs::Gridding::grid_held, contents::proofs::Gridding::grid_put_after))]
    fn fill(&mut self, place: Place, octets: &[u8]) {
        let index = place.index();
        self.lens[index] = self.cells.write(index, octets);
        self.held += 1;
    }

    #[tactic(auto, using(contents::proofs::Gridding::grid_some, contents::proofs::Gridding::grid_none, contents::proofs::Gridding::grid_release_after))]
    fn release(&mut self, place: Place) {
        let index = place.index();
        if self.lens[index] > 0 {
            self.lens[index] = 0;
            self.held -= 1;
        }
    }
}

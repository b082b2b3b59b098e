// The values of the seats' edges, read by chooser and choice.
ghost use Rattle.std.specs.Prelude.{◌≡◌, ◌<◌, ◌≤◌, length};
ghost use Rattle.counting.specs.Search.{first_to};
ghost use Rattle.scheduling.specs.Schedule.{entry_at};
ghost use Rattle.mip_flow.specs.IndexLaws.{number_at};
ghost use Rattle.decoding.specs.Decode.{is_one};
ghost use Rattle.decoding.specs.Decoding.{Finds, one_in};

use mip_flow::EdgeIndex;

// The seats' edges are those that the index numbers; each has a value.
#[derive(Clone, Copy)]
pub struct EdgeValues<'a> {
    pub index: &'a EdgeIndex,
    pub values: &'a [i32],
}

impl<'a> EdgeValues<'a> {
    // Whether the chooser has an edge to the choice, and it has the value 1.
    #[tactic(auto, unfolding(counting::specs::Ints::eq_z))]
    fn has_one(&self, chooser: usize, choice: u8) -> bool
        requires { (self.now.index.now.count ≤ length self.now.values.now) × (chooser < 64) × (choice < 32) }
        ensures { result ≡ is_one self.now.index.now.count self.now.values.now (number_at self.now.index.now.numbers chooser choice) }
    {
        let edge = self.index.edge(chooser, choice as usize);
        edge.is_some_and(|e| self.values[e] == 1)
    }

    // The first of the listed choices to which the chooser's edge has 1. There is one.
    pub(crate) fn choice_of(&self, list: &[u8], chooser: usize) -> u8
        requires { Finds self.now list.now chooser }
        ensures { result ≡ entry_at list.now (first_to (length list.now) (one_in self.now (entry_at list.now) chooser)) }
    {
        for k in list {
            if self.has_one(chooser, *k) {
                return *k;
            }
        }
        unreachable!()
    }
}

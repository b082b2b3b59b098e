// The edges of a model: four lent buffers that stand side by side, and how much of their front is used.
ghost use Rattle.std.specs.Prelude.{◌≡◌, ◌<◌};
ghost use Rattle.model_buffers.specs.Stored.{EdgePlace, edge_pushed};

#[derive(Drop)]
pub struct Edges<'a> {
    pub from: &'a mut [u16],
    pub to: &'a mut [u16],
    pub max: &'a mut [u32],
    pub cost: &'a mut [i64],
    pub used: usize,
}

impl<'a> Edges<'a> {
    // Stores an edge after those that are there.
    pub fn push(&mut self, from: usize, to: usize, max: u32, cost: i64)
        requires { EdgePlace self.old × (from < 65536) × (to < 65536) }
        ensures { self.new ≡ edge_pushed self.old from to max cost }
    {
        let n = self.used;
        self.from[n] = from as u16;
        self.to[n] = to as u16;
        self.max[n] = max;
        self.cost[n] = cost;
        self.used = n + 1;
    }
}

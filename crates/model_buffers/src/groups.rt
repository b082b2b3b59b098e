// Groups of edges and blocked edges, in three lent buffers.
ghost use Rattle.std.specs.Prelude.{◌≡◌, [], ◌∷◌, ◌<◌, length};
ghost use Rattle.model_buffers.specs.Stored.{Filled, group_closed};

// The groups' entries, one group after the other, where each group ends among them, and the blocked
// edges; and how much of each is used.
#[derive(Drop)]
pub struct Groups<'a> {
    pub entries: &'a mut [u16],
    pub ends: &'a mut [u16],
    pub blocked: &'a mut [u16],
    pub entries_used: usize,
    pub ends_used: usize,
    pub blocked_used: usize,
}

// Stores a number in a buffer after those that are there.
#[tactic(auto, unfolding(counting::specs::Written::written))]
pub fn push(buffer: &mut [u16], used: &mut usize, number: usize)
    requires { (used.old < length buffer.old) × (number < 65536) }
    ensures { Filled buffer.old used.old (number ∷ []) buffer.new used.new }
{
    buffer[*used] = number as u16;
    *used += 1;
}

impl<'a> Groups<'a> {
    // The entries that were stored since the last group are a group.
    #[tactic(auto, unfolding(counting::specs::Written::written))]
    pub fn close(&mut self)
        requires { (self.old.entries_used < 65536) × (self.old.ends_used < length self.old.ends.now) }
        ensures { self.new ≡ group_closed self.old }
    {
        let end = self.entries_used;
        push(self.ends, &mut self.ends_used, end);
    }
}

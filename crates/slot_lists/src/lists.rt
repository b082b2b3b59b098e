// The slots' lists as a call is lent them: one buffer with a part for each slot, and how long each list is.
ghost use Rattle.std.specs.Prelude.{◌+◌, ◌*◌, ◌<◌, ◌≤◌, length};
ghost use Rattle.scheduling.specs.Schedule.{entry_at};
ghost use Rattle.slot_lists.specs.Parts.{IsList};

#[derive(Clone, Copy)]
pub struct SlotLists<'a> {
    pub bytes: &'a [u8],
    pub stride: usize,
    pub lens: [u32; 8],
}

impl<'a> SlotLists<'a> {
    // A slot's list, as a part of the lent buffer. The model is built and decoded from these.
    pub fn list(&self, slot: usize) -> &'a [u8]
        requires inside { slot < 8 }
        requires fits { entry_at self.now.lens slot ≤ self.now.stride }
        requires part { self.now.stride * slot + self.now.stride ≤ length self.now.bytes.now }
        ensures { IsList self.now slot result }
    {
        let start = self.stride * slot;
        &self.bytes[start..start + self.lens[slot] as usize]
    }
}

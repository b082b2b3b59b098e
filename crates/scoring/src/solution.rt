// solution.rs: a solution, with the parts that its kind has.
#[derive(Clone, Copy)]
pub enum Solution<'a> {
    Invalid,
    // A schedule.
    Scheduling(&'a [u8]),
    // A schedule and a plan.
    Complete(&'a [u8], &'a [u8]),
}

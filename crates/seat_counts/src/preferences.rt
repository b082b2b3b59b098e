// The preferences that a plan uses: the greatest, how often each is used, and the minor of the score.
ghost use Rattle.std.specs.Prelude.{◌≡◌, ◌<◌, ◌≤◌, max, length, ℕ};
ghost use Rattle.counting.specs.Calls.{TakesBelow, AgreesBelow};
ghost use Rattle.counting.specs.Fold.{fold_to};
ghost use Rattle.assignment.specs.Rows.{SeatsOf};
ghost use Rattle.scheduling.specs.Schedule.{entry_at};
ghost use Rattle.seat_counts.specs.Preferences.{preference_at, greatest_row, greatest, uses_in, uses, scaling_of, weighted_by, minor_of};
ghost use Rattle.seat_counts.specs.Laws.{Reading, Counting, Added, UsesHeld, Weighing};

use assignment::Seats;
use counting::fold_below;
use input_data::Day;

// The greatest of f 0, f 1, .., f (n - 1), and 0 where there is none.
fn greatest_of<F: Fn(usize) -> u32>(n: usize, f: F) -> u32
    requires { TakesBelow (F.pre f) n }
    ensures { (of : ℕ → ℕ) → AgreesBelow (F.post f) n of → result ≡ fold_to max 0 n of }
{
    fold_below(n, 0, f, |most, x| most.max(x))
}

// The preferences of the choosers' seats: the seats of a plan, and the table of preferences.
#[derive(Clone, Copy)]
pub struct SeatPreferences<'a> {
    pub seats: Seats<'a>,
    pub preferences: &'a [u32],
    ghost reading: { Reading seats.choosers seats.choices seats.slots preferences.now seats.plan.now },
}

impl<'a> SeatPreferences<'a> {
    pub fn of(day: &Day, preferences: &'a [u32], plan: &'a [u8]) -> SeatPreferences<'a>
        requires { Reading day.now.choosers day.now.choices day.now.slots preferences.now plan.now }
        ensures seats { SeatsOf day.now plan.now result.seats }
        ensures table { result.preferences.now ≡ preferences.now }
    {
        let seats = Seats::of(day, plan);
        SeatPreferences { seats, preferences }
    }

    // The preference of a chooser's seat in a slot.
    fn preference_at(&self, chooser: usize, s: usize) -> u32
        requires { (chooser < self.now.seats.choosers) × (s < self.now.seats.slots) }
        ensures value { result ≡ preference_at self.now.seats.choices self.now.seats.slots self.now.preferences.now self.now.seats.plan.now chooser s }
        ensures small { result ≤ 255 }
    {
        let choice = self.seats.choice_of(chooser, s) as usize;
        self.preferences[chooser * self.seats.choices + choice]
    }

    // The greatest preference that a chooser has.
    #[tactic(auto, unfolding(crate::specs::Preferences::greatest_row))]
    fn greatest_row(&self, chooser: usize) -> u32
        requires { chooser < self.now.seats.choosers }
        ensures { result ≡ greatest_row self.now.seats.choices self.now.seats.slots self.now.preferences.now self.now.seats.plan.now chooser }
    {
        greatest_of(self.seats.slots, |s| self.preference_at(chooser, s))
    }

    // The greatest preference that is used, 0 without seats.
    #[tactic(auto, using(crate::specs::Laws::greatest_small), unfolding(crate::specs::Preferences::greatest))]
    pub fn greatest(&self) -> u32
        ensures value { result ≡ greatest self.now.seats.choosers self.now.seats.choices self.now.seats.slots self.now.preferences.now self.now.seats.plan.now }
        ensures small { result ≤ 255 }
    {
        greatest_of(self.seats.choosers, |c| self.greatest_row(c))
    }

    // Counts the preferences that a chooser has.
    fn count_row(&self, counts: &mut [u32; 256], chooser: usize)
        requires { Counting self.now.seats.choosers chooser counts.old }
        ensures { Added (uses_in self.now.seats.choices self.now.seats.slots self.now.preferences.now self.now.seats.plan.now chooser) counts.old counts.new }
    {
        for s in 0..self.seats.slots {
            counts[self.preference_at(chooser, s) as usize] += 1;
        }
    }

    // How often each preference is used.
    pub fn counts(&self) -> [u32; 256]
        ensures { UsesHeld (uses self.now.seats.choosers self.now.seats.choices self.now.seats.slots self.now.preferences.now self.now.seats.plan.now) result }
    {
        let mut counts = [0; 256];
        for c in 0..self.seats.choosers {
            self.count_row(&mut counts, c);
        }
        counts
    }
}

// The power of the greatest preference, or 1 at 0.
fn scaling(powers: &[f32], most: usize) -> f32
    requires { most < length powers.now }
    ensures { result ≡ scaling_of most powers.now }
{
    if most == 0 { 1.0 } else { powers[most] }
}

// (count × power) / scaling. A count of 0 is not left out: 0 × ∞ is NaN.
fn term(count: u32, power: f32, by: f32) -> f32
    requires { count ≤ 512 }
    ensures { result ≡ weighted_by count power by }
{
    (count as f32) * power / by
}

// The sum of the terms, upward, each step rounded.
#[tactic(auto, unfolding(crate::specs::Preferences::minor_to, crate::specs::Preferences::minor_of))]
pub fn minor(counts: &[u32; 256], powers: &[f32], most: usize) -> f32
    requires { Weighing counts.now (length powers.now) most }
    ensures { result ≡ minor_of (entry_at counts.now) powers.now most }
{
    let by = scaling(powers, most);
    fold_below(
        most + 1,
        0.0,
        |p| term(counts[p], powers[p], by),
        |sum, x| sum + x,
    )
}

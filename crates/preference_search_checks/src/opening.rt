// What a search is begun with, once all that is lent has passed.
ghost use Rattle.std.specs.Prelude.{◌≤◌, length};
ghost use Rattle.assignment.specs.Laws.{Small};

use input_data::Day;
use preference_search::LentCached;

#[derive(Drop)]
pub struct Opening<'a> {
    pub day: &'a Day<'a>,
    pub entries: &'a [u8; 32],
    pub levels: &'a [u32],
    pub cached: LentCached<'a>,
    ghost small: { Small day.now },
    ghost few: { length levels.now ≤ 256 },
}

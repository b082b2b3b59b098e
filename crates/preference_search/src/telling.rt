// What a search is told, once the day has passed and all has its length.
ghost use Rattle.std.specs.Prelude.{◌≤◌, length};
ghost use Rattle.preference_search.specs.Answered.{told_by};
ghost use Rattle.preference_search.specs.Laws.{Holding};

use crate::Told;
use crate::lent::LentSearch;
use input_data::Day;

#[derive(Drop)]
pub struct Telling<'a> {
    pub day: &'a Day<'a>,
    pub search: LentSearch<'a>,
    pub levels: &'a [u32],
    pub told: &'a Told<'a>,
    ghost holding: { Holding day.now (told_by told.now) },
    ghost few: { length levels.now ≤ 256 },
}

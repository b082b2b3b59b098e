// Checks 4, 5 and 6, of lent tables.
ghost use Rattle.std.specs.Prelude.{◌≡◌};
ghost use Rattle.input_data.specs.Checks.{has_bad_preferences, has_bad_levels, has_bad_costs};

use counting::any_below;

// 4. A preference above max_preference.
#[tactic(auto, unfolding(input_data::specs::Checks::has_bad_preferences))]
pub fn bad_preferences(most: u32, preferences: &[u32]) -> bool
    ensures { result ≡ has_bad_preferences most preferences.now }
{
    any_below(preferences.len(), |i| most < preferences[i])
}

// 5. Levels that ascend are at most max_preference if the last one is.
#[tactic(auto, using(input_data::specs::Levels::no_levels))]
pub fn bad_levels(most: u32, levels: &[u32]) -> bool
    ensures { result ≡ has_bad_levels most levels.now }
{
    let Some(last) = levels.last() else {
        return false;
    };
    let n = levels.len() - 1;
    (255 < n) | (most < *last) | any_below(n, |i| levels[i + 1] <= levels[i])
}

// 6.
#[tactic(auto, unfolding(input_data::specs::Checks::has_bad_costs))]
pub fn bad_costs(costs: &[i64]) -> bool
    ensures { result ≡ has_bad_costs costs.now }
{
    any_below(
        costs.len(),
        |i| (costs[i] < 0) | (1_099_511_627_776 < costs[i]),
    )
}

// Which days and which times of day there are.
ghost use Rattle.std.specs.Prelude.{◌≡◌};
ghost use Rattle.capture_rules.specs.Doc.Time.{leap, days_in, is_date, is_clock};
ghost use Rattle.dates.specs.Told.{time_of};

use crate::Time;

#[tactic(auto, unfolding(capture_rules::specs::Doc::Time::leap))]
fn leap(year: u16) -> bool
    ensures { result ≡ leap year }
{
    year % 4 == 0 && (year % 100 != 0 || year % 400 == 0)
}

#[tactic(auto, unfolding(capture_rules::specs::Doc::Time::days_in, rules::specs::Doc::Lists::any))]
fn days_in(year: u16, month: u8) -> u8
    ensures { result ≡ days_in year month }
{
    match month {
        2 => if leap(year) { 29 } else { 28 },
        4 | 6 | 9 | 11 => 30,
        _ => 31,
    }
}

#[tactic(auto, unfolding(capture_rules::specs::Doc::Time::is_date))]
pub(crate) fn is_date(t: Time) -> bool
    ensures { result ≡ is_date (time_of t) }
{
    1 <= t.year && (1..=12).contains(&t.month) && (1..=days_in(t.year, t.month)).contains(&t.day)
}

// There is no second 60.
#[tactic(auto, unfolding(capture_rules::specs::Doc::Time::is_clock))]
pub(crate) fn is_clock(t: Time) -> bool
    ensures { result ≡ is_clock (time_of t) }
{
    t.hour <= 23 && t.minute <= 59 && t.second <= 59
}

// A date and a time of day from twenty bytes.
#![tactic(auto)]

ghost use Rattle.std.specs.Prelude.{true, ◌≡◌};
ghost use Rattle.capture_rules.specs.Doc.Time.{pattern, alike, time_in, time};
ghost use Rattle.dates.specs.Told.{time_of, parsed_of};

mod calendar;
mod shape;

#[derive(Clone, Copy)]
pub struct Time {
    pub year: u16,
    pub month: u8,
    pub day: u8,
    pub hour: u8,
    pub minute: u8,
    pub second: u8,
}

// Where the six numbers stand in bytes of the shape.
#[tactic(auto, unfolding(capture_rules::specs::Doc::Time::time_in))]
fn time_in(value: &[u8]) -> Time
    requires { alike pattern value.now ≡ true }
    ensures { time_of result ≡ time_in value.now }
{
    Time {
        year: shape::decimal(value, 0, 4),
        month: shape::two(value, 5),
        day: shape::two(value, 8),
        hour: shape::two(value, 11),
        minute: shape::two(value, 14),
        second: shape::two(value, 17),
    }
}

// None where there is no such date and time: of all those the refusal is 37. The numbers are read only of bytes that have the shape, so that each byte
// in a digit's place is a digit.
#[tactic(auto, unfolding(capture_rules::specs::Doc::Time::time, capture_rules::specs::Doc::Time::pattern))]
pub fn parse(value: &[u8]) -> Option<Time>
    ensures { parsed_of result ≡ time value.now }
{
    if !shape::alike(b"0000:00:00 00:00:00\0", value) {
        return None;
    }
    let found = time_in(value);
    (calendar::is_date(found) && calendar::is_clock(found)).then_some(found)
}

//! The text of a moment at an end of a connection, kept for the next one.

ghost use Rattle.std.specs.Prelude.{◌≡◌, ◌/◌, ◌%◌, ◌<◌, ◌++◌, ℕ, IsTrue, codes};
ghost use Rattle.lc_time.specs.Clock.{clock_text_of};
ghost use Rattle.page_json.specs.MomentText.{end_text};

use lc_model::Moment;
use lc_time::{clock_text, iso_text};
use percent_encoding::ascii_str;

const DAY_SECONDS: u64 = 86_400;

/// An end of a connection.
#[derive(Clone, Copy, PartialEq, Eq)]
pub enum End {
    Arrival,
    Departure,
}

/// A moment at an end, and its text. Of the moments of a page many are the same one after the other, and most are of one day.
#[derive(Drop)]
pub struct MomentText {
    pub end: End,
    pub moment: Moment,
    text: [u8; 43],
    ghost says: { text ≡ end_text end moment },
}

impl MomentText {
    pub fn new(end: End, moment: Moment) -> MomentText
        ensures end { result.end ≡ end }
        ensures moment { result.moment ≡ moment }
    {
        MomentText {
            end,
            moment,
            text: text_at(end, moment),
        }
    }

    /// Takes another end and another moment in the place of these.
    pub fn turn_to(&mut self, end: End, moment: Moment)
        ensures end { self.new.end ≡ end }
        ensures moment { self.new.moment ≡ moment }
    {
        if !self.is_at(end, moment) {
            let turned = self.turned(end, moment);
            *self = turned;
        }
    }

    fn is_at(&self, end: End, moment: Moment) -> bool
        ensures { IsTrue result → (self.now.end ≡ end) × (self.now.moment ≡ moment) }
    {
        self.end == end && self.moment == moment
    }

    /// Another moment with its text. At the same end and of the same day, only the time of day is written anew.
    fn turned(&self, end: End, moment: Moment) -> MomentText
        ensures end { result.end ≡ end }
        ensures moment { result.moment ≡ moment }
    {
        if self.end != end {
            return MomentText::new(end, moment);
        }
        let before = self.moment.seconds();
        let seconds = moment.seconds();
        if before / DAY_SECONDS != seconds / DAY_SECONDS {
            return MomentText::new(end, moment);
        }
        MomentText {
            end,
            moment,
            text: with_clock(end, self.text, (seconds % DAY_SECONDS) as u32),
        }
    }

    pub fn as_str(&self) -> &str
        ensures { result.now ≡ end_text self.now.end self.now.moment }
    {
        let _range = self.moment.seconds();
        ascii_str(&self.text)
    }
}

fn text_at(end: End, moment: Moment) -> [u8; 43]
    ensures { result ≡ end_text end moment }
{
    match end {
        End::Arrival => arrival_text(moment),
        End::Departure => departure_text(moment),
    }
}

fn arrival_text(moment: Moment) -> [u8; 43]
    ensures { result ≡ end_text End.Arrival moment }
{
    let mut text = *b"\",\"arrivalTime\":\"YYYY-MM-DDTHH:MM:SS.000Z\",";
    text[17..41].copy_from_slice(&iso_text(moment));
    text
}

fn departure_text(moment: Moment) -> [u8; 43]
    ensures { result ≡ end_text End.Departure moment }
{
    let mut text = *b"\",\"departureTime\":\"YYYY-MM-DDTHH:MM:SS.000Z";
    text[19..].copy_from_slice(&iso_text(moment));
    text
}

/// The text of a moment, with the time of so many seconds after midnight in place of its own.
fn with_clock(end: End, text: [u8; 43], seconds: u32) -> [u8; 43]
    requires { seconds < 86_400 }
    ensures { (last moment : ℕ) → text ≡ end_text end last → last / 86_400 ≡ moment / 86_400 → seconds ≡ moment % 86_400
        → result ≡ end_text end moment }
{
    match end {
        End::Arrival => arrival_at(text, seconds),
        End::Departure => departure_at(text, seconds),
    }
}

fn arrival_at(mut text: [u8; 43], seconds: u32) -> [u8; 43]
    requires { seconds < 86_400 }
    ensures { (last moment : ℕ) → text ≡ end_text End.Arrival last → last / 86_400 ≡ moment / 86_400 → seconds ≡ moment % 86_400
        → result ≡ end_text End.Arrival moment }
{
    text[28..36].copy_from_slice(&clock_text(seconds));
    text
}

fn departure_at(mut text: [u8; 43], seconds: u32) -> [u8; 43]
    requires { seconds < 86_400 }
    ensures { (last moment : ℕ) → text ≡ end_text End.Departure last → last / 86_400 ≡ moment / 86_400 → seconds ≡ moment % 86_400
        → result ≡ end_text End.Departure moment }
{
    text[30..38].copy_from_slice(&clock_text(seconds));
    text
}

// The settings as one list of numbers, as opening is given them in C.
ghost use Rattle.std.specs.Prelude.{◌≡◌, length, eqb, Some, None};
ghost use Rattle.common.specs.Choice.{pick};
ghost use Rattle.settings.specs.Given.{settings_size, joined, settings_in};

use crate::Settings;
use sites::Site;

// How many numbers the settings are.
const NUMBERS: usize = 13;

// A list has just as many.
pub fn is_whole(given: &[u32]) -> bool
    ensures { result ≡ eqb (length given.now) settings_size }
{
    given.len() == NUMBERS
}

// A second from its two halves.
pub fn joined(low: u32, high: u32) -> u64
    ensures { result ≡ joined low high }
{
    (low as u64) + 4294967296 * (high as u64)
}

// The settings that thirteen numbers stand for.
pub fn settings_in(given: &[u32]) -> Settings
    requires { length given.now ≡ settings_size }
    ensures { result ≡ settings_in given.now }
{
    let site = Site {
        offset: given[10],
        second: joined(given[11], given[12]),
    };
    Settings {
        mode: given[0],
        format: given[1],
        align: given[2],
        active: given[3],
        code: given[4],
        mask: given[5],
        events: given[6],
        queue: given[7],
        tx: given[8],
        buffer: given[9],
        site,
    }
}

// The settings of a list of numbers; none where they are not just as many.
pub fn given_settings(given: &[u32]) -> Option<Settings>
    ensures { result
        ≡ pick (eqb (length given.now) settings_size) (Some (settings_in given.now)) None }
{
    if !is_whole(given) {
        return None;
    }
    Some(settings_in(given))
}

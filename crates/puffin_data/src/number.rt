//! Decimal numbers in texts.

ghost use Rattle.std.specs.Prelude.{◌≡◌, ◌^◌};
ghost use Rattle.puffin_data.specs.Number.{number_below};

/// Parses a decimal number below `2^64`. Unlike `str::parse`, it takes no sign.
pub fn parse_number(word: &str) -> Option<u64>
    ensures { result ≡ number_below (2 ^ 64) word.now }
{
    if word.starts_with('+') {
        return None;
    }
    word.parse::<u64>().ok()
}

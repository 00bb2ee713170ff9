//! Drawing numbers.
ghost use Rattle.std.specs.Prelude.{◌≡◌, ◌<◌};
ghost use Rattle.pf_gen.specs.Draws.{following, value_of};

// The number behind this one.
fn following_number(number: u32) -> u32
    ensures { result ≡ following number }
{
    ((number as u64 * 1_103_515_245 + 12_345) % 2_147_483_648) as u32
}

// Draws one of so many values.
pub(crate) fn draw(number: &mut u32, values: u32) -> u32
    requires { 0 < values }
    ensures drawn { result ≡ value_of number.new values }
    ensures behind { number.new ≡ following number.old }
{
    *number = following_number(*number);
    *number / 65_536 % values
}

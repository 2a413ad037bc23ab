ghost use Rattle.std.specs.Prelude.{◌≡◌};
ghost use Rattle.xt_image.specs.Made.{made_head};

use crate::image::Head;

/// The head of an image that is made and not read: flash mode 2, size and frequency 0x20,
/// write-protect pin 0xEE, greatest chip revision 0xFFFF, and zeros elsewhere.
pub fn made_head() -> Head
    ensures { result ≡ made_head }
{
    Head {
        mode: 2,
        size_freq: 0x20,
        wp_pin: 0xEE,
        drive: [0; 3],
        min_rev_old: 0,
        min_rev: 0,
        max_rev: 0xFFFF,
        reserved: [0; 4],
    }
}

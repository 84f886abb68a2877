// Which of two images is used, and what the EPROM holds.
ghost use Rattle.std.specs.Prelude.{◌≡◌, true, length};
ghost use Rattle.registers.specs.Registers.{image_bytes};
ghost use Rattle.settings.specs.Images.{is_good};
ghost use Rattle.switch_on.specs.SwitchOn.{used_of, eprom_of};

use registers::IMAGE;
use registers::parts::autoload_on;

// The image that is used: the stored one if it is good with autoload on, else the factory one.
#[tactic(auto, unfolding(crate::specs::SwitchOn::used_of))]
pub(crate) fn used<'a>(stored: &'a [u8], factory: &'a [u8]) -> &'a [u8]
    ensures { result.now ≡ used_of stored.now factory.now }
{
    if settings::is_good(stored) & autoload_on(wire::byte_at(stored, 0)) {
        return stored;
    }
    factory
}

// The ten bytes of an image as an array. The caller shows that it has ten.
fn whole(i: &[u8]) -> [u8; IMAGE]
    requires { length i.now ≡ image_bytes }
    ensures { result ≡ i.now }
{
    <[u8; IMAGE]>::try_from(i).unwrap()
}

// What the EPROM holds. The caller shows that the factory image is good.
#[tactic(auto, using(settings::proofs::Good::good_size))]
pub(crate) fn eprom(stored: &[u8], factory: &[u8]) -> [u8; IMAGE]
    requires { is_good factory.now ≡ true }
    ensures { result ≡ eprom_of stored.now factory.now }
{
    match <[u8; IMAGE]>::try_from(stored) {
        Ok(image) => image,
        Err(_) => whole(factory),
    }
}

// The version of the C face, raised whenever the signature of a call changes or calls are added: `PW_VERSION` of include/pottagewing.h.
ghost use Rattle.std.specs.Prelude.{◌≡◌};

const VERSION: u32 = 6;

pub fn pw_version() -> u32
    ensures { result ≡ 6 }
{
    VERSION
}

// The version of the C face, raised whenever the signature of a call changes or calls are added: `PW_VERSION` of include/pottagewing.h.
ghost use Rattle.std.specs.Prelude.{◌≡◌};

#[unsafe(no_mangle)]
pub extern "C" fn pw_version() -> u32
    ensures { result ≡ 6 }
{
    pottagewing::pw_version()
}

// The version of this library, which bindings/c/sim7000.h and bindings/rust/Cargo.toml share:
// bindings/test holds the three to each other.
ghost use Rattle.text.specs.Gives.{Gives};
ghost use Rattle.sim7000.specs.Version.{version};

#[unsafe(no_mangle)]
pub extern "C" fn sim7000_version() -> u32
    ensures { Gives version result }
{
    900
}

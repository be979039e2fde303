// Single leaves as C functions, for the comparison with the Rust on numbers that no effect hands to them. No part of what a controller links.
#![tactic(auto)]

ghost use Rattle.std.specs.Prelude.{◌≡◌};
ghost use Rattle.float64.specs.Number.{whole_part};

#[unsafe(no_mangle)]
pub extern "C" fn leaf_whole_part(x: f64) -> u64
    ensures { result ≡ whole_part x }
{
    float64::whole_part(x)
}

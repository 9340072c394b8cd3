// Types whose `==` tells any two values apart.
ghost use Rattle.naming.specs.Laws.{exact_hash, exact_name};
ghost use Rattle.std.specs.Prelude.{◌≡◌, Decides};

use crate::hash::Hash;
use crate::name::Name;

pub trait Exact: PartialEq {
    // Two values are equal exactly where they are the same.
    ghost exact: { (x y : Self) → Decides (Self.eq x y) (x ≡ y) };
}

impl Exact for Hash {
    ghost exact = { exact_hash };
}

impl Exact for Name {
    ghost exact = { exact_name };
}

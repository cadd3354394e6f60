//! What holds of the texts of keys. Each law stands on a function that does nothing: its clause is
//! the law.

ghost use Rattle.std.specs.Prelude.{◌≡◌, ◌<◌, ◌++◌, ℕ, List, true, Some};
ghost use Rattle.std.specs.List.{list_all};
ghost use Rattle.agg_types.specs.Fits.{key_fits};
ghost use Rattle.agg_types.specs.declared.config.KeyKind.TheVariants.{Ipv6};
ghost use Rattle.key_text.specs.Elided.{elided, is_part, with_groups};
ghost use Rattle.key_text.specs.Printed.{key_text};
ghost use Rattle.key_text.specs.Read.{key_of};

use agg_types::KeyKind;

/// The text that a key is printed as is read as that key, whatever the kind of keys.
pub fn printed_key_is_read(kind: KeyKind, key: &[u8])
    requires { key_fits kind key.now ≡ true }
    ensures { key_of kind (key_text kind key.now) ≡ Some key.now }
{
    let _ = kind;
    let _ = key;
}

/// An IPv6 address with `::` is read as the key that it is read as with one or more groups `0` in
/// the place of the `::`, if it is one.
pub fn elided_address_is_read(key: &[u8])
    ensures { (front back : List (List ℕ)) (zeros : ℕ)
        → list_all is_part front ≡ true → list_all is_part back ≡ true → 0 < zeros
        → key_of Ipv6 (with_groups front zeros back) ≡ Some key.now
        → key_of Ipv6 (elided front back) ≡ Some key.now }
{
    let _ = key;
}

// Examples of hash parts and names: four of the definitions, by proof, and many of the code, by tests.
#![tactic(auto)]

ghost use Rattle.naming_tests.specs.Examples.{Examples};
ghost use Rattle.std.specs.Prelude.{◌≡◌, true};

// The worked examples hold of the definitions.
pub fn examples_hold() -> bool
    ensures { (result ≡ true) × Examples }
{
    true
}

#[cfg(test)]
mod tests {
    use naming::{Hash, Name};
    use std::cmp::Ordering;
    use std::test::Fail;

    // Hashes with their hash parts, in hash order.
    const TABLE: [([u8; 20], [u8; 32]); 10] = [
        (
            *b"\0\0\0\0\0\0\0\0\0\0\0\0\0\0\0\0\0\0\0\0",
            *b"00000000000000000000000000000000",
        ),
        (
            *b"\x01\0\0\0\0\0\0\0\0\0\0\0\0\0\0\0\0\0\0\0",
            *b"00000000000000000000000000000001",
        ),
        (
            *b"\x80\0\0\0\0\0\0\0\0\0\0\0\0\0\0\0\0\0\0\x01",
            *b"04000000000000000000000000000040",
        ),
        (
            *b"\0\x01\x02\x03\x04\x05\x06\x07\x08\t\n\x0b\x0c\r\x0e\x0f\x10\x11\x12\x13",
            *b"2c91240g1q6hq2qa1440f1h50h1h4080",
        ),
        (
            *b"cutting table no. 17",
            *b"6wqj0bkgdqh6av32c5s20rvfd5s78xb3",
        ),
        (
            *b"abcdefghijklmnopqrst",
            *b"firp4wbhdxp6sv3bd9lnhrv6cmj66qk1",
        ),
        (
            *b"\0\0\0\0\0\0\0\0\0\0\0\0\0\0\0\0\0\0\0\x80",
            *b"h0000000000000000000000000000000",
        ),
        (
            *b"\xec\xed\xee\xef\xf0\xf1\xf2\xf3\xf4\xf5\xf6\xf7\xf8\xf9\xfa\xfb\xfc\xfd\xfe\xff",
            *b"zzzgvz7vzbwzixznypsg7wpiy3pyxvgc",
        ),
        (
            *b"\0\0\0\0\0\0\0\0\0\0\xff\xff\xff\xff\xff\xff\xff\xff\xff\xff",
            *b"zzzzzzzzzzzzzzzz0000000000000000",
        ),
        (
            *b"\xff\xff\xff\xff\xff\xff\xff\xff\xff\xff\xff\xff\xff\xff\xff\xff\xff\xff\xff\xff",
            *b"zzzzzzzzzzzzzzzzzzzzzzzzzzzzzzzz",
        ),
    ];

    // Texts that are no hash parts.
    const NO_PARTS: [&[u8]; 9] = [
        b"",
        b"0000000000000000000000000000000",
        b"000000000000000000000000000000000",
        b"e0000000000000000000000000000000",
        b"0000000000000000000000000000000o",
        b"0000000000000000t000000000000000",
        b"000000000000000000000000000000u0",
        b"A0000000000000000000000000000000",
        b"0000000000000000000000000000-000",
    ];

    // What may stand first in a name.
    const FIRST: &[u8] = b"ABCDEFGHIJKLMNOPQRSTUVWXYZabcdefghijklmnopqrstuvwxyz0123456789+-_?=";

    #[test]
    fn parts_and_back(rt: HostRuntime) {
        for (bytes, part) in TABLE {
            let hash = Hash::new(bytes);
            assert!(rt; hash.part() == part);
            assert!(rt; Hash::from_part(&part) == Some(hash));
        }
    }

    #[test]
    fn no_parts(rt: HostRuntime) {
        for text in NO_PARTS {
            assert!(rt; Hash::from_part(text).is_none());
        }
    }

    #[test]
    fn hash_order(rt: HostRuntime) {
        for ((low, _), (high, _)) in TABLE.iter().zip(TABLE.iter().skip(1)) {
            let low = Hash::new(*low);
            let high = Hash::new(*high);
            assert!(rt; low.cmp(&high) == Ordering::Less);
            assert!(rt; low.cmp(&low) == Ordering::Equal);
            assert!(rt; high.cmp(&low) == Ordering::Greater);
        }
    }

    #[test]
    fn one_byte_names(rt: HostRuntime) {
        for byte in 0..=255 {
            assert!(rt; Name::new(&[byte]).is_some() == FIRST.contains(&byte));
            assert!(rt;
                Name::new(&[b'a', byte]).is_some() == (byte == b'.' || FIRST.contains(&byte))
            );
        }
    }

    #[test]
    fn name_lengths(rt: HostRuntime) {
        let text = [b'a'; 30];
        for length in 0..=30 {
            assert!(rt; Name::new(&text[0..length]).is_some() == (1..=24).contains(&length));
        }
        assert!(rt; Name::new(b".a").is_none());
        assert!(rt; Name::new(b"a.").is_some());
    }

    #[test]
    fn name_text(rt: HostRuntime) -> Result<(), Fail> {
        let name = Name::new(b"cloth=linen_140").ok_or("refused")?;
        assert!(rt; name.as_bytes() == b"cloth=linen_140".as_slice());
        Ok(())
    }
}

//! Keys that share their texts, known and forgotten.

use super::{Host, are_same, halves, secret_key};
use si_model::Key;
use si_text::KnownKeys;

/// The key of this text, made anew.
fn new_key(rt: &impl Host, text: &str) -> Key {
    assert!(rt; Key::fits(text));
    Key::new(rt.alloc(), text).expect(rt, "memory")
}

/// The key of this text, as it is given.
fn known_key(rt: &impl Host, keys: &mut KnownKeys, text: &str) -> Key {
    assert!(rt; Key::fits(text));
    keys.key(text).expect(rt, "memory")
}

/// The key has this text.
fn is_key(rt: &impl Host, key: &Key, text: &str) {
    are_same(rt, key.as_str(), text);
    assert!(rt; *key == new_key(rt, text));
}

/// The key of this text is given, and then so many are known.
fn gives(rt: &impl Host, keys: &mut KnownKeys, text: &str, known: usize) {
    is_key(rt, &known_key(rt, keys, text), text);
    are_same(rt, keys.len(), known);
}

/// The same for each row, which is a text and a number.
fn gives_all(rt: &impl Host, keys: &mut KnownKeys, rows: &str) {
    for row in rows.trim().lines() {
        let (text, known) = halves(rt, row);
        gives(
            rt,
            keys,
            text,
            known.parse::<usize>().ok().expect(rt, "a number"),
        );
    }
}

/// No key is known.
pub(super) fn no_keys(rt: &impl Host) -> KnownKeys {
    KnownKeys::new(rt.alloc(), secret_key(rt))
}

/// A text of 16 bytes is a short one, and one of 17 isn't.
const NEW: &str = "
    x | 0
    accounts/00000001 | 1
    accounts/00000002 | 2
    accounts/00000001 | 2
    accounts/00000001/balance | 3
    accounts/0000002 | 3
    accounts/00000002 | 3
    accounts/00000003 | 4";

/// What came first is still known, and what was forgotten counts anew.
const FORGOTTEN: &str = "
    accounts/00000002 | 2
    accounts/00000003 | 3
    accounts/00000001/balance | 4
    accounts/00000001 | 4";

#[test]
fn longer_keys_are_known_and_forgotten(rt: HostRuntime) {
    let mut keys = no_keys(&rt);
    are_same(&rt, keys.len(), 0);
    gives_all(&rt, &mut keys, NEW);
    keys.truncate(2);
    gives_all(&rt, &mut keys, FORGOTTEN);
    keys.truncate(9);
    are_same(&rt, keys.len(), 4);
}

/// How many keys a long input has.
const MANY: usize = 5_000;

/// Each of many different keys is known once, and found again.
#[test]
fn thousands_of_longer_keys_are_known(rt: HostRuntime) {
    let mut keys = no_keys(&rt);
    for turn in 0..2 * MANY {
        let text = numbered(&rt, turn % MANY);
        gives(&rt, &mut keys, text.as_str(), MANY.min(turn + 1));
    }
}

fn numbered(rt: &impl Host, number: usize) -> String {
    format!(in rt.alloc(); "accounts/{number}/balance in whole cents").expect(rt, "memory")
}

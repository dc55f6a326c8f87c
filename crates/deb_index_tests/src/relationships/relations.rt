//! Names of packages, relationship fields and qualifiers.

use deb_relation::{Atom, RelationError, is_name, parse_list};
use std::process::Abort;

#[test]
fn knows_names(rt: HostRuntime) {
    for name in [b"a".as_slice(), b"0ad", b"libstdc++6", b"x_Y.z-1"] {
        assert!(rt; is_name(name));
    }
    for other in [b"".as_slice(), b"-a", b"_", b"a b", b"a:any", b"a~"] {
        assert!(rt; !is_name(other));
    }
}

/// Fields with alternatives, and how they are printed. A comma stands behind each group, so these tell how many there are.
pub static READ: [(&[u8], &[u8]); 13] = [
    (
        b"a | b:any (>= 1:2-3), , c(<2)",
        b"a|b:any (>= 1:2-3)|,c (<= 2)|,",
    ),
    (b"", b""),
    (b" , ,", b""),
    (b",,a,,b,,", b"a|,b|,"),
    (b"\ta\n(\n<<\t1\n)\n,\n b", b"a (<< 1)|,b|,"),
    (b"a(= 1)", b"a (= 1)|,"),
    (b"a (>=1)|b", b"a (>= 1)|b|,"),
    (b"a(>1-1),a(>>1)", b"a (>= 1-1)|,a (>> 1)|,"),
    (b"A:AMD64,a:all", b"A:AMD64|,a:all|,"),
    (b"a:any, b (= 1)", b"a:any|,b (= 1)|,"),
    (b"a, b, c", b"a|,b|,c|,"),
    (b"a, b | c | d, e", b"a|,b|c|d|,e|,"),
    (b"a | b, , c | d | e,", b"a|b|,c|d|e|,"),
];

/// Fields that are refused. Of two faults the one that stands first is told, whether or not there are alternatives.
pub static REFUSED: [(&[u8], RelationError); 28] = [
    (b"a |", RelationError::Alternative),
    (b"| a", RelationError::Alternative),
    (b"a || b", RelationError::Alternative),
    (b"|", RelationError::Alternative),
    (b"a b", RelationError::Trailing),
    (b"a [amd64]", RelationError::Trailing),
    (b"a <!nocheck>", RelationError::Trailing),
    (b"a:any:x", RelationError::Trailing),
    (b"a (= 1) b", RelationError::Trailing),
    (b"a\r", RelationError::Trailing),
    (b"a, b c, -", RelationError::Trailing),
    (b"a | b c", RelationError::Trailing),
    (b"a | b c, -", RelationError::Trailing),
    (b"a (1)", RelationError::Bound),
    (b"a (= )", RelationError::Bound),
    (b"a (= 1 2)", RelationError::Bound),
    (b"a (>=", RelationError::Bound),
    (b"a (=> 1)", RelationError::Bound),
    (b"a (== 1)", RelationError::Bound),
    (b"a (= 1_2)", RelationError::Bound),
    (b"a, b (, -", RelationError::Bound),
    (b"a, b | c (= ), d |", RelationError::Bound),
    (b"a:", RelationError::Name),
    (b"a: any", RelationError::Name),
    (b"-a", RelationError::Name),
    (b"(= 1)", RelationError::Name),
    (b"a, -b", RelationError::Name),
    (b"a | b:", RelationError::Name),
];

/// Fields without alternatives, and how they are printed.
pub static LISTS: [(&[u8], &[u8]); 2] = [
    (b"a, b (= 1)", b"a|b (= 1)|"),
    (b"a, b (= 1),", b"a|b (= 1)|"),
];

/// Fields that are refused where there are no alternatives. Of two faults the one that stands first is told.
pub static NO_LISTS: [(&[u8], RelationError); 4] = [
    (b"a | b", RelationError::Alternative),
    (b"- | b", RelationError::Alternative),
    (b"a,|", RelationError::Alternative),
    (b"a b, c | d", RelationError::Trailing),
];

/// Whether each of the atoms is usable on amd64 so, and has the qualifier `any` so.
fn are_used(atoms: &[Atom], wanted: &[(bool, bool)]) -> bool {
    for (atom, (usable, any)) in atoms.iter().zip(wanted.iter()) {
        if atom.usable(b"amd64") != *usable || atom.has_any() != *any {
            return false;
        }
    }
    atoms.len() == wanted.len()
}

#[test]
fn uses_qualifiers(rt: HostRuntime) {
    let wanted = [
        (true, false),
        (true, true),
        (true, false),
        (false, false),
        (false, false),
        (false, false),
        (false, false),
    ];
    let text = b"a, a:any, a:amd64, a:all, a:Any, a:AMD64, a:i386";
    let atoms = parse_list(rt.alloc(), text).expect(&rt, "a list");
    assert!(rt; are_used(&atoms, &wanted));
}

// What a `Kept` keeps.
use crate::kept::Kept;

#[test]
fn keeps_the_first_items_in_order(rt: HostRuntime) {
    let mut kept = Kept::<i32, 3>::new(0);
    assert!(rt; kept.is_empty());
    assert_eq!(rt; kept.as_slice(), [].as_slice());
    for item in 5..9 {
        kept.push(item);
    }
    assert!(rt; !kept.is_empty());
    assert_eq!(rt; kept.as_slice(), [5, 6, 7].as_slice());
}

#[test]
fn keeps_two_of_three(rt: HostRuntime) {
    let mut kept = Kept::<u8, 3>::new(9);
    kept.push(b'a');
    kept.push(b'b');
    assert_eq!(rt; kept.as_slice(), b"ab".as_slice());
}

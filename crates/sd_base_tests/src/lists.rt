//! Lists and texts.
ghost use Rattle.std.specs.Prelude.{◌≡◌, ◌<◌, length, slice_set};

use sd_list::{Sequence, Text};
use std::test::Fail;

/// Puts a number in the place of the item at this index.
fn put(numbers: &mut Sequence<i128>, index: usize, number: i128)
    requires { index < length numbers.old }
    ensures { numbers.new ≡ slice_set numbers.old index number }
{
    numbers.as_mut_slice()[index] = number;
}

#[test]
fn a_thousand_items_are_kept_and_one_is_changed_in_its_place(rt: HostRuntime) -> Result<(), Fail> {
    let alloc = rt.alloc();
    let mut numbers = Sequence::new(alloc);
    for number in 0..1_000_u32 {
        numbers.push(i128::from(number))?;
    }
    assert_eq!(rt; numbers.len(), 1_000);
    for (index, number) in numbers.as_slice().iter().enumerate() {
        assert_eq!(rt; *number, index as i128);
    }
    let mut numbers = Sequence::from(vec![in alloc; 1, 2, 3]?);
    put(&mut numbers, 1, 7);
    assert!(rt; numbers.into_vec().as_slice() == [1, 7, 3].as_slice());
    Ok(())
}

#[test]
fn texts_are_the_same_where_all_bytes_are(rt: HostRuntime) -> Result<(), Fail> {
    let alloc = rt.alloc();
    let words = "a_name_of_thirty_letters_$1_ä";
    let name = Text::from(words.to_string(alloc)?);
    let copy = name.copy_of(alloc)?;
    assert!(rt; copy.same(&name));
    assert!(rt; !copy.same(&Text::from("a_name_of_thirty_letters_$1_ö".to_string(alloc)?)));
    assert!(rt; !copy.same(&Text::from(String::new(alloc))));
    assert_eq!(rt; name.as_str(), words);
    assert_eq!(rt; copy.into_string().as_str(), words);
    Ok(())
}

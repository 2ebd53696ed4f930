//! Look-ups of a dict without a table, before and in the midst of another pass's write.
use crate::{go_online, open_three};
use ft_boxes::new_passes_are_settled;
use ft_dict::{look_get, look_has};
use ft_model::{Key, Raise, Reply};
use ft_section::Look;
use std::test::Fail;

#[test]
fn a_dict_that_is_written_contends(rt: HostRuntime) -> Result<(), Fail> {
    let alloc = rt.alloc();
    let (bank, mut writer, mut early, mut late) = open_three(alloc)?;
    new_passes_are_settled(&bank, &early);
    new_passes_are_settled(&bank, &late);
    if !go_online(&bank, &mut early) {
        return Err(Fail::from("the write number begins with 1"));
    }
    if !go_online(&bank, &mut late) {
        return Err(Fail::from("the write number begins with 1"));
    }
    let Look::Done(reply, stamp) = look_get(&bank, &mut early, 0, Key::Int(7)) else {
        return Err(Fail::from("nobody writes the dict"));
    };
    assert_eq!(rt; reply, Reply::Raised(Raise::NoKey));
    assert_eq!(rt; stamp.number, 0);
    assert_eq!(rt; stamp.wrote, false);
    assert_eq!(rt; early.left(), 9);
    let Ok(()) = bank.try_lock(&mut writer, 0) else {
        return Err(Fail::from("the lock is free"));
    };
    assert_eq!(rt; bank.start_write(&mut writer, 0), 0);
    let Look::Contended(first, second) = look_has(&bank, &mut late, 0, Key::Int(7)) else {
        return Err(Fail::from("the version of the dict is odd"));
    };
    assert_eq!(rt; first, 1);
    assert_eq!(rt; second, 1);
    assert_eq!(rt; late.left(), 10);
    Ok(())
}

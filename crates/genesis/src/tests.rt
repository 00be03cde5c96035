use crate::machine::HostMachine;
use gx_device::{AttachStop, Device, FetchStop, Machine};
use std::test::Fail;
use std::{env, fs, process};

// A text is fetched whole or not at all, the script is heard, and what is said is taken.
#[test]
fn the_machine_is_the_host(rt: HostRuntime) -> Result<(), Fail> {
    let alloc = rt.alloc();
    let file = format!(in alloc; "genesis-text-{}", process::id(rt.process()))?;
    let path = env::temp_dir(&rt)?.join(alloc, &file)?;
    let name = path.to_str().unwrap_or("");
    fs::write(&rt, name, b"12345")?;
    let mut machine = HostMachine::new(alloc, &rt);
    assert_eq!(rt;
        machine.fetch(alloc, name, 5),
        Ok(vec![in alloc; 49, 50, 51, 52, 53]?)
    );
    assert_eq!(rt; machine.fetch(alloc, name, 4), Err(FetchStop::TooLong));
    assert_eq!(rt;
        machine.fetch(alloc, "/dev/zero", 16380),
        Err(FetchStop::TooLong)
    );
    fs::remove_file(&rt, name)?;
    assert_eq!(rt; machine.fetch(alloc, name, 5), Err(FetchStop::Missing));
    assert_eq!(rt; machine.fetch(alloc, "/", 5), Err(FetchStop::Missing));
    assert_eq!(rt; machine.say(b""), Ok(0));
    assert_eq!(rt; machine.say(b"said\n"), Ok(5));
    let mut piece = [0u8; 8];
    assert!(rt; machine.hear(&mut piece).is_ok());
    Ok(())
}

// A device is made once, keeps what was written, and is attached by one machine at a time.
#[test]
fn a_device_is_a_file(rt: HostRuntime) -> Result<(), Fail> {
    let alloc = rt.alloc();
    let file = format!(in alloc; "genesis-device-{}", process::id(rt.process()))?;
    let path = env::temp_dir(&rt)?.join(alloc, &file)?;
    let name = path.to_str().unwrap_or("");
    let mut block = [7u8; 4096];
    {
        let mut machine = HostMachine::new(alloc, &rt);
        assert_eq!(rt; machine.attach(alloc, name, None), Err(AttachStop::Missing));
        assert_eq!(rt; machine.blocks(), 0);
        assert_eq!(rt; machine.attach(alloc, name, Some(3)), Ok(()));
        assert_eq!(rt; machine.blocks(), 3);
        if machine.blocks() > 2 {
            assert!(rt; machine.write_block(2, &block).is_ok());
        }
        assert!(rt; machine.sync().is_ok());
        let mut other = HostMachine::new(alloc, &rt);
        assert_eq!(rt; other.attach(alloc, name, Some(3)), Err(AttachStop::Exists));
        assert_eq!(rt; other.attach(alloc, name, None), Err(AttachStop::Fault));
    }
    let mut machine = HostMachine::new(alloc, &rt);
    assert_eq!(rt; machine.attach(alloc, name, None), Ok(()));
    if machine.blocks() > 2 {
        assert!(rt; machine.read_block(0, &mut block).is_ok());
        assert_eq!(rt; block[0], 0);
        assert!(rt; machine.read_block(2, &mut block).is_ok());
        assert_eq!(rt; block[4095], 7);
    }
    fs::remove_file(&rt, name)?;
    assert_eq!(rt; machine.attach(alloc, "/", None), Err(AttachStop::Missing));
    Ok(())
}

// A device that was attached before is kept with its lock, and is attached again.
#[test]
fn devices_are_attached_in_turn(rt: HostRuntime) -> Result<(), Fail> {
    let alloc = rt.alloc();
    let folder = env::temp_dir(&rt)?;
    let file = format!(in alloc; "genesis-first-{}", process::id(rt.process()))?;
    let first = folder.join(alloc, &file)?;
    let first = first.to_str().unwrap_or("");
    let file = format!(in alloc; "genesis-second-{}", process::id(rt.process()))?;
    let second = folder.join(alloc, &file)?;
    let second = second.to_str().unwrap_or("");
    let mut machine = HostMachine::new(alloc, &rt);
    let mut other = HostMachine::new(alloc, &rt);
    assert_eq!(rt; machine.attach(alloc, first, Some(3)), Ok(()));
    let mut block = [7u8; 4096];
    if machine.blocks() > 2 {
        assert!(rt; machine.write_block(2, &block).is_ok());
    }
    assert!(rt; machine.sync().is_ok());
    assert_eq!(rt; machine.attach(alloc, second, Some(5)), Ok(()));
    assert_eq!(rt; machine.blocks(), 5);
    assert_eq!(rt; other.attach(alloc, first, None), Err(AttachStop::Fault));
    assert_eq!(rt;
        machine.attach(alloc, first, Some(3)),
        Err(AttachStop::Exists)
    );
    assert_eq!(rt; machine.blocks(), 5);
    assert_eq!(rt; machine.attach(alloc, first, None), Ok(()));
    assert_eq!(rt; machine.attach(alloc, first, None), Ok(()));
    assert_eq!(rt; machine.blocks(), 3);
    block[4095] = 0;
    if machine.blocks() > 2 {
        assert!(rt; machine.read_block(2, &mut block).is_ok());
    }
    assert_eq!(rt; block[4095], 7);
    assert_eq!(rt; other.attach(alloc, second, None), Err(AttachStop::Fault));
    fs::remove_file(&rt, first)?;
    fs::remove_file(&rt, second)?;
    Ok(())
}

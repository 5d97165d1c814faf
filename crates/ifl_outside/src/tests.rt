use super::*;
use ifl_base::Items;
use std::alloc::Global;
use std::sync::Wait;
use std::test::*;
use std::{fs, thread};

fn entry(alloc: Global, name: &str, bytes: &[u8]) -> Result<FileEntry, Fail> {
    Ok(FileEntry {
        name: String::from_str(alloc, name)?,
        bytes: Items::from_vec(Vec::from_slice(alloc, bytes)?),
    })
}

/// Two files of the name `a` and one of the name `b`.
fn entries(alloc: Global) -> Result<Vec<FileEntry>, Fail> {
    let mut files = Vec::new(alloc);
    files.push(entry(alloc, "a", &[1, 2])?)?;
    files.push(entry(alloc, "a", &[3])?)?;
    files.push(entry(alloc, "b", &[4])?)?;
    Ok(files)
}

/// What a read finds, as text: the number of bytes, or which of the other answers it was.
fn read_as(alloc: Global, host: &mut impl Host, name: &str, limit: u64) -> Result<String, Fail> {
    let said = match host.read(alloc, name, limit) {
        Ok(Fetch::Bytes(bytes)) => format!(in alloc; "{:?}", bytes.as_slice())?,
        Ok(Fetch::Absent) => String::from_str(alloc, "absent")?,
        Ok(Fetch::TooLong) => String::from_str(alloc, "too long")?,
        Err(e) => format!(in alloc; "{e}")?,
    };
    Ok(said)
}

#[test]
fn memory_host_holds_files_and_fails_as_told(rt: HostRuntime) -> Result<(), Fail> {
    let alloc = rt.alloc();
    let fail = Vec::from_slice(alloc, &[3, 5])?;
    let mut host = MemoryHost::new(alloc, entries(alloc)?, fail)?;
    assert_eq!(rt; read_as(alloc, &mut host, "a", 2)?.as_str(), "[1, 2]");
    assert_eq!(rt; read_as(alloc, &mut host, "a", 1)?.as_str(), "too long");
    assert_eq!(rt; read_as(alloc, &mut host, "c", 9)?.as_str(), "absent");
    assert_eq!(rt; host.write(alloc, "a", &[9]), Err(HostError::Failed));
    assert_eq!(rt; host.write(alloc, "a", &[7, 8, 9]), Ok(()));
    assert_eq!(rt; host.print(alloc, b"lost"), Err(HostError::Failed));
    assert_eq!(rt; host.print(alloc, b"kept"), Ok(()));
    assert_eq!(rt; host.write(alloc, "c", &[5]), Ok(()));
    assert_eq!(rt; host.printed(), b"kept".as_slice());
    let mut held = Vec::new(alloc);
    for file in host.files() {
        held.push(file.bytes.as_slice())?;
    }
    assert_eq!(rt;
        held.as_slice(),
        [
            [7u8, 8, 9].as_slice(),
            [3].as_slice(),
            [4].as_slice(),
            [5].as_slice()
        ]
        .as_slice()
    );
    Ok(())
}

#[test]
fn steady_host_never_fails(rt: HostRuntime) -> Result<(), Fail> {
    let alloc = rt.alloc();
    let mut host = SteadyHost::new(alloc, entries(alloc)?)?;
    assert_eq!(rt; host.write(alloc, "b", &[6]), Ok(()));
    assert_eq!(rt; host.print(alloc, b"line"), Ok(()));
    assert_eq!(rt; read_as(alloc, &mut host, "b", 1)?.as_str(), "[6]");
    assert_eq!(rt; host.files().len(), 3);
    assert_eq!(rt; host.printed(), b"line".as_slice());
    Ok(())
}

/// A folder that is empty.
fn empty_folder(rt: &HostRuntime, folder: &str) -> Result<(), Fail> {
    let _ = fs::remove_dir_all(rt, folder);
    fs::create_dir(rt, folder)?;
    Ok(())
}

#[test]
fn real_host_reads_back_what_it_wrote(rt: HostRuntime) -> Result<(), Fail> {
    let alloc = rt.alloc();
    let folder = "ifl_outside_real_host";
    empty_folder(&rt, folder)?;
    let name = format!(in alloc; "{folder}/file")?;
    let absent = format!(in alloc; "{folder}/absent")?;
    {
        let mut host = RealHost::new(&rt);
        assert_eq!(rt; host.write(alloc, name.as_str(), &[1, 2, 3]), Ok(()));
        assert_eq!(rt;
            read_as(alloc, &mut host, name.as_str(), 3)?.as_str(),
            "[1, 2, 3]"
        );
        assert_eq!(rt;
            read_as(alloc, &mut host, name.as_str(), 2)?.as_str(),
            "too long"
        );
        assert_eq!(rt;
            read_as(alloc, &mut host, absent.as_str(), 3)?.as_str(),
            "absent"
        );
        assert_eq!(rt; host.print(alloc, b"printed by the real host\n"), Ok(()));
    }
    fs::remove_dir_all(&rt, folder)?;
    Ok(())
}

/// A folder opens and cannot be read; a name below a file does not open, and not since it is not there.
#[test]
fn real_host_fails_at_what_is_no_file(rt: HostRuntime) -> Result<(), Fail> {
    let alloc = rt.alloc();
    let folder = "ifl_outside_no_file";
    empty_folder(&rt, folder)?;
    let name = format!(in alloc; "{folder}/file")?;
    let below = format!(in alloc; "{folder}/file/below")?;
    {
        let mut host = RealHost::new(&rt);
        assert_eq!(rt; host.write(alloc, name.as_str(), &[1]), Ok(()));
        assert_eq!(rt;
            read_as(alloc, &mut host, folder, 3)?.as_str(),
            "the host failed"
        );
        assert_eq!(rt; host.write(alloc, folder, &[1]), Err(HostError::Failed));
        assert_eq!(rt;
            read_as(alloc, &mut host, below.as_str(), 3)?.as_str(),
            "the host failed"
        );
        assert_eq!(rt;
            host.write(alloc, below.as_str(), &[1]),
            Err(HostError::Failed)
        );
    }
    fs::remove_dir_all(&rt, folder)?;
    Ok(())
}

/// A file of two pieces and a part of a third.
#[test]
fn real_host_reads_a_file_in_pieces(rt: HostRuntime) -> Result<(), Fail> {
    let alloc = rt.alloc();
    let folder = "ifl_outside_pieces";
    empty_folder(&rt, folder)?;
    let name = format!(in alloc; "{folder}/file")?;
    let mut bytes = Vec::new(alloc);
    for i in 0..131_077u32 {
        bytes.push((i % 251) as u8)?;
    }
    {
        let mut host = RealHost::new(&rt);
        assert_eq!(rt; host.write(alloc, name.as_str(), &bytes), Ok(()));
        match host.read(alloc, name.as_str(), 131_077) {
            Ok(Fetch::Bytes(read)) => assert!(rt; read.as_slice() == bytes.as_slice()),
            _ => assert!(rt; false),
        }
        assert_eq!(rt;
            read_as(alloc, &mut host, name.as_str(), 131_076)?.as_str(),
            "too long"
        );
    }
    fs::remove_dir_all(&rt, folder)?;
    Ok(())
}

/// A gate that holds whoever comes for one turn of a handle that may wait.
#[derive(Drop)]
struct HoldingGate<R: Wait> {
    rt: R,
}

impl<R: Wait + Sync> Gate for HoldingGate<R> {
    fn at(&self, _who: u16, _point: Point) {
        for _ in self.rt.forever() {
            break;
        }
    }
}

#[test]
fn two_threads_pass_each_gate(rt: HostRuntime) -> Result<(), Fail> {
    let free = FreeGate;
    let (_, _) = thread::join(
        &rt,
        || free.at(0, Point::Begin),
        || free.at(1, Point::Begin),
    );
    let holding = HoldingGate { rt: &rt };
    let (_, _) = thread::join(
        &rt,
        || holding.at(0, Point::Begin),
        || holding.at(1, Point::Begin),
    );
    Ok(())
}

use super::*;

/// How many bytes are left of a capture of one frame with ten bytes behind it, four bytes that stand at a place in
/// it, and the line that is printed.
const NO_CAPTURES: [(usize, usize, [u8; 4], &str); 7] = [
    (0, 0, [0xd4, 0xc3, 0xb2, 0xa1], "capture: f at 0: Short\n"),
    (
        110,
        0,
        [0xd4, 0xc3, 0xb2, 0xa1],
        "capture: f at 100: RecordShort\n",
    ),
    (
        99,
        0,
        [0xd4, 0xc3, 0xb2, 0xa1],
        "capture: f at 24: RecordShort\n",
    ),
    (100, 0, [0, 0xc3, 0xb2, 0xa1], "capture: f at 0: Magic\n"),
    (100, 4, [2, 0, 3, 0], "capture: f at 4: Version\n"),
    (100, 20, [2, 0, 0, 0], "capture: f at 20: Link\n"),
    (100, 32, [1, 0, 4, 0], "capture: f at 24: TooLong\n"),
];

#[test]
fn what_is_no_capture_is_named_with_its_first_fault(rt: HostRuntime) -> Result<(), Fail> {
    let alloc = rt.alloc();
    let words = words_of(alloc, "send --wire w --order o f")?;
    for (len, place, four, line) in NO_CAPTURES {
        let mut bytes = capture_of(alloc, &[60])?;
        bytes.extend_from_slice(&[0; 10])?;
        for (i, byte) in four.iter().enumerate() {
            if let Some(old) = bytes.get_mut(place.saturating_add(i)) {
                *old = *byte;
            }
        }
        bytes.truncate(len);
        let mut host = MemoryHost::new(alloc, one_file(alloc, "f", bytes)?, Vec::new(alloc))?;
        let finished = run(&rt, alloc, &words, &mut host, &FreeGate);
        assert_eq!(rt; finished.status, 3, "{line}");
        assert_eq!(rt; host.printed(), line.as_bytes());
        assert_eq!(rt; host.files().len(), 1, "{line}");
    }
    Ok(())
}

#[test]
fn a_capture_of_another_form_goes_to_the_wire_in_the_written_form(
    rt: HostRuntime,
) -> Result<(), Fail> {
    let alloc = rt.alloc();
    let mut bytes = Vec::from_slice(
        alloc,
        &[
            0xa1, 0xb2, 0x3c, 0x4d, 0, 2, 0, 4, 0, 0, 0, 0, 0, 0, 0, 0, 0, 0, 0xff, 0xff, 0, 0, 0,
            1,
        ],
    )?;
    bytes.extend_from_slice(&[0, 0, 0, 5, 0x3b, 0x9a, 0xc9, 0xff, 0, 0, 0, 60, 0, 0, 0, 60])?;
    let mut wire = Vec::from_slice(alloc, &HEADER)?;
    wire.extend_from_slice(&[5, 0, 0, 0, 0x3f, 0x42, 0x0f, 0, 60, 0, 0, 0, 60, 0, 0, 0])?;
    for byte in 0..60u8 {
        bytes.push(byte)?;
        wire.push(byte)?;
    }
    let mut host = MemoryHost::new(alloc, one_file(alloc, "f", bytes)?, Vec::new(alloc))?;
    let words = words_of(alloc, "send --wire w --order o f")?;
    let finished = run(&rt, alloc, &words, &mut host, &FreeGate);
    assert_eq!(rt; finished.status, 0);
    assert_eq!(rt; held(host.files(), "w"), Some(wire.as_slice()));
    Ok(())
}

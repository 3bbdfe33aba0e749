use ofit_study::is_name;

#[test]
fn names_are_told_from_other_bytes(rt: HostRuntime) {
    let names: [&[u8]; 6] = [
        b"A",
        b"Low dose",
        b" ",
        b"a,\"b\"",
        "Größe".as_bytes(),
        &[b'n'; 64],
    ];
    for name in names {
        assert!(rt; is_name(name));
    }
    let others: [&[u8]; 8] = [
        b"",
        &[b'n'; 65],
        b"a\tb",
        b"a\nb",
        b"\x1F",
        b"a\x7F",
        b"\xFF",
        b"\xC3",
    ];
    for other in others {
        assert!(rt; !is_name(other));
    }
}

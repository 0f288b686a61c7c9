// Sheets, and what is printed of them. The bytes are those of tools/encode_sheets.py, an encoder of its own.
use layout::fault::{Layer, SheetFault};
use report::sheets::describe;
use sheet::view::Sheet;
use std::test::Fail;

// A sheet, and what is printed of it.
const SHEETS: [(&[u8], &str); 32] = [
    // the two-place sheet
    (
        &[0x02, 0x00, 0x04, 0x01, 0x00, 0x07, 0xff, 0xa0, 0x0e],
        "places 2\nhome 0\nport 1\nroute 0 start 0 end 1 floor -3 ceiling 7\n",
    ),
    // four places, no routes
    (&[0x04, 0x00, 0x0c, 0x00], "places 4\nhome 0\nport 3\n"),
    // the least floor
    (
        &[0x02, 0x00, 0x04, 0x01, 0x02, 0x02, 0x00, 0x20, 0x00],
        "places 2\nhome 0\nport 1\nroute 0 start 1 end 0 floor -4095 ceiling 0\n",
    ),
    // 128 places and the greatest marks
    (
        &[
            0x80, 0xfe, 0x00, 0x02, 0x01, 0xfd, 0xff, 0xff, 0xff, 0xf8, 0x0f, 0xff, 0xc0, 0x00,
        ],
        "places 128\nhome 127\nport 0\nroute 0 start 0 end 127 floor 4095 ceiling 4095\nroute 1 start 126 end 1 floor -1 ceiling 0\n",
    ),
    // empty
    (&[], "refused 51 bits 0 0\n"),
    // ends inside home
    (&[0x02], "refused 51 bits 0 8\n"),
    // ends inside port
    (&[0x02, 0x00], "refused 51 bits 0 15\n"),
    // ends inside routes
    (&[0x04, 0x00, 0x0c], "refused 51 bits 0 22\n"),
    // one place
    (&[0x01, 0x00, 0x00, 0x00], "refused 1 frame 0 0\n"),
    // 129 places
    (&[0x81, 0x00, 0x04, 0x00], "refused 1 frame 0 0\n"),
    // no place, and home and port bad too
    (&[0x00, 0x0a, 0x14, 0x00], "refused 1 frame 0 0\n"),
    // home is no place, and port is none
    (&[0x02, 0x04, 0x08, 0x00], "refused 2 frame 0 8\n"),
    // port is no place
    (&[0x02, 0x00, 0x08, 0x00], "refused 3 frame 0 15\n"),
    // port is home
    (&[0x03, 0x04, 0x0a, 0x58], "refused 3 frame 0 15\n"),
    // 513 routes
    (&[0x02, 0x00, 0x06, 0x01], "refused 52 sheet 0 22\n"),
    // 512 routes and no record
    (&[0x02, 0x00, 0x06, 0x00], "refused 51 bits 1 32\n"),
    // ends inside the end
    (&[0x02, 0x00, 0x04, 0x01, 0x00], "refused 51 bits 1 39\n"),
    // ends inside the floor
    (
        &[0x02, 0x00, 0x04, 0x01, 0x00, 0x07],
        "refused 51 bits 1 46\n",
    ),
    // ends inside the ceiling, and the start is bad
    (
        &[0x02, 0x00, 0x04, 0x01, 0x12, 0x07, 0xff, 0xa0],
        "refused 51 bits 1 59\n",
    ),
    // ends inside the second record
    (
        &[
            0x02, 0x00, 0x04, 0x02, 0x00, 0x07, 0xff, 0xa0, 0x0e, 0x04, 0x00, 0x00,
        ],
        "refused 51 bits 2 85\n",
    ),
    // start is no place, nor is the end
    (
        &[0x02, 0x00, 0x04, 0x01, 0x04, 0x08, 0x00, 0xa0, 0x02],
        "refused 11 order 1 32\n",
    ),
    // end is no place
    (
        &[0x02, 0x00, 0x04, 0x01, 0x02, 0x08, 0x00, 0xa0, 0x02],
        "refused 11 order 1 39\n",
    ),
    // the ends are one place
    (
        &[0x02, 0x00, 0x04, 0x01, 0x02, 0x04, 0x00, 0xa0, 0x02],
        "refused 12 order 1 39\n",
    ),
    // floor -4,096
    (
        &[0x02, 0x00, 0x04, 0x01, 0x00, 0x06, 0x00, 0x00, 0x0e],
        "refused 14 order 1 46\n",
    ),
    // floor above the ceiling
    (
        &[0x02, 0x00, 0x04, 0x01, 0x00, 0x04, 0x01, 0x00, 0x0e],
        "refused 14 order 1 46\n",
    ),
    // the second record, start
    (
        &[
            0x02, 0x00, 0x04, 0x02, 0x00, 0x07, 0xff, 0xa0, 0x0e, 0x1c, 0x08, 0x00, 0x00, 0x04,
        ],
        "refused 11 order 2 71\n",
    ),
    // the second record, floor
    (
        &[
            0x02, 0x00, 0x04, 0x02, 0x00, 0x07, 0xff, 0xa0, 0x0e, 0x00, 0x08, 0x00, 0x80, 0x04,
        ],
        "refused 14 order 2 85\n",
    ),
    // a whole byte too many
    (&[0x04, 0x00, 0x0c, 0x00, 0x00], "refused 54 sheet 1 32\n"),
    // a whole byte too many, and it is not 0
    (
        &[0x02, 0x00, 0x04, 0x01, 0x00, 0x07, 0xff, 0xa0, 0x0e, 0x01],
        "refused 54 sheet 2 71\n",
    ),
    // the last bit is 1
    (
        &[0x02, 0x00, 0x04, 0x01, 0x00, 0x07, 0xff, 0xa0, 0x0f],
        "refused 55 sheet 2 71\n",
    ),
    // the first of two padding bits
    (
        &[
            0x02, 0x00, 0x04, 0x02, 0x00, 0x07, 0xff, 0xa0, 0x0e, 0x04, 0x00, 0x00, 0x3f, 0xfe,
        ],
        "refused 55 sheet 3 110\n",
    ),
    // the second of two padding bits
    (
        &[
            0x02, 0x00, 0x04, 0x02, 0x00, 0x07, 0xff, 0xa0, 0x0e, 0x04, 0x00, 0x00, 0x3f, 0xfd,
        ],
        "refused 55 sheet 3 111\n",
    ),
];

#[test]
fn sheets_are_described(rt: HostRuntime) -> Result<(), Fail> {
    for (bytes, text) in SHEETS {
        let described = describe(rt.alloc(), bytes)?;
        assert_eq!(rt; described.as_str(), text);
    }
    Ok(())
}

// The fault of the two-place sheet, read into so many entries.
fn fault_with(entries: usize) -> Option<SheetFault> {
    let bytes = [0x02, 0x00, 0x04, 0x01, 0x00, 0x07, 0xff, 0xa0, 0x0e];
    Sheet::read(&bytes, entries).err()
}

#[test]
fn entries_are_counted(rt: HostRuntime) -> Result<(), Fail> {
    let fault = fault_with(0).ok_or("a sheet of one route fits no entry")?;
    assert_eq!(rt; fault.number(), 53);
    assert_eq!(rt; fault.layer(), Layer::Sheet);
    assert_eq!(rt; fault.record(), 0);
    assert_eq!(rt; fault.bit(), 22);
    assert!(rt; fault_with(1).is_none());
    Ok(())
}

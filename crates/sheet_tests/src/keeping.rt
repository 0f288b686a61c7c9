// What a caller may keep a sheet in.
use board::frame::Frame;
use layout::fault::SheetFault;
use sheet::view::Sheet;

// A sheet, and a lent mark for each of its routes.
#[derive(Drop)]
struct Marked<'a> {
    sheet: Sheet<'a>,
    marks: &'a mut [u8],
}

// The sheet in these bytes with the marks, or why it is refused: for one, where it has more routes than there are marks.
fn with_marks<'a>(bytes: &'a [u8], marks: &'a mut [u8]) -> Result<Marked<'a>, SheetFault> {
    let sheet = Sheet::read(bytes, marks.len())?;
    Ok(Marked { sheet, marks })
}

// The sheet's frame, and each route marked by its end, if there are marks enough.
fn mark_all(bytes: &[u8], marks: &mut [u8]) -> Result<Frame, SheetFault> {
    let Marked { sheet, marks } = with_marks(bytes, marks)?;
    for (mark, route) in marks.iter_mut().zip(sheet.routes()) {
        *mark = route.end;
    }
    Ok(sheet.frame()?)
}

#[test]
fn in_a_result(rt: HostRuntime) {
    let bytes = [0x02, 0x00, 0x04, 0x01, 0x00, 0x07, 0xff, 0xa0, 0x0e];
    let mut marks = [9; 2];
    let frame = mark_all(&bytes, &mut marks);
    assert_eq!(rt; frame.map(|frame| (frame.home(), frame.port())), Ok((0, 1)));
    assert_eq!(rt; marks, [1, 9]);
    let refused = mark_all(&bytes, &mut marks[..0]).err();
    assert_eq!(rt; refused, Some(SheetFault::EntryLimit));
}

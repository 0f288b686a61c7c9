// Going over the routes of a sheet.
ghost use Rattle.std.specs.Iterator.{YieldsFirst, item_count};
ghost use Rattle.sheet.specs.View.{routes_left};

use crate::view::Sheet;
use board::route::Route;

// The routes of a sheet from a number on, in the order of their numbers.
#[derive(Drop)]
pub struct Routes<'a> {
    pub(crate) sheet: Sheet<'a>,
    pub(crate) next: usize,
}

impl Iterator for Routes<'_> {
    type Item = Route;

    ghost next_gives = { YieldsFirst routes_left };

    ghost remaining = { item_count routes_left };

    fn next(&mut self) -> Option<Route> {
        let route = self.sheet.route(self.next)?;
        self.next += 1;
        Some(route)
    }
}

// Lines gathered for one write, so that not every line is a write of its own.
ghost use Rattle.std.specs.Prelude.{◌≤◌, ◌+◌, length};

use digits::Line;

// The bytes of the lines gathered.
pub const ROOM: usize = 4096;

// Makes room for n bytes more: where there is none, the lines that are there are written, and a page is begun.
pub fn make_room(rt: &impl Print, page: &mut Line<ROOM>, n: usize)
    requires { n ≤ ROOM }
    ensures { length page.new + n ≤ ROOM }
{
    if ROOM - n < page.len() {
        show::write_line(rt, page);
        *page = Line::new();
    }
}

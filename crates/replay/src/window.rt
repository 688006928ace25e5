// The unread bytes of standard input, kept in a buffer.
ghost use Rattle.std.specs.Prelude.{◌+◌, ◌≡◌, ◌≤◌, length};
ghost use Rattle.replay.specs.Window.{Within, advanced, Ready};

use program::STDIN;

// Where they start and end. That they are within the buffer is no invariant: each turn would hand on a lent buffer.
#[derive(Clone, Copy)]
pub struct Window {
    pub from: usize,
    pub to: usize,
}

// Past the first n unread bytes.
pub fn advanced(at: Window, n: usize) -> Window
    requires { at.from + n ≤ at.to }
    ensures { result ≡ advanced n at }
{
    Window {
        from: at.from + n,
        to: at.to,
    }
}

// Reads on where there are fewer than `need`, until the buffer is full or the input ends.
pub fn ready(buf: &mut [u8], at: Window, need: usize) -> Window
    requires { Within (length buf.old) at }
    ensures { Ready buf.old buf.new need at result }
{
    let unread = at.to - at.from;
    if need <= unread {
        return at;
    }
    buf.copy_within(at.from..at.to, 0);
    let more = io::read_full(STDIN, &mut buf[unread..]);
    Window {
        from: 0,
        to: unread + more,
    }
}

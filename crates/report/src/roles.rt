// The roles of a list: a line for each row, or the refusal.
ghost use Rattle.std.specs.Prelude.{◌≡◌, ℕ, ◌≤◌, length};
ghost use Rattle.token_list.specs.Place.{OneRefusal};
ghost use Rattle.reading.specs.Answer.{refused, answer, buffer, read_number};
ghost use Rattle.output.specs.Contract.{Printed};
ghost use Rattle.output.specs.Writes.{Writes};
ghost use Rattle.report.specs.Roles.{assigned, role_line, role_lines, roles_text, read_as_lem};

use output::put::put_refusal;
use output::writer::Writer;
use parse::item::new;
use parse::role::NONE;
use token_list::check::Refusal;

// How many bytes stand before the first that holds no role.
fn count_assigned(roles: &[u8]) -> usize
    ensures { result ≡ assigned roles.now }
{
    roles.iter().take_while(|role| **role != NONE).count()
}

// Reads the list, with a byte of `roles` for each row: how many rows have a role, or the refusal.
pub fn read_roles(list: &[u8], roles: &mut [u8]) -> Result<usize, Refusal>
    ensures read_as { read_as_lem result roles.new (answer list.now (length roles.old)) }
    ensures roles_after { roles.new ≡ buffer (length roles.old)
        (answer list.now (length roles.old)) }
    ensures by_index { (n p : ℕ) → answer list.now (length roles.old) ≡ refused n p →
        OneRefusal read_number list.now n p }
{
    new(list, roles)?;
    Ok(count_assigned(roles))
}

fn put_line(w: &mut Writer, row: usize, role: u8)
    ensures { Writes w.old w.new (role_line row role) }
{
    w.number(row);
    w.byte(b' ');
    w.number(role as usize);
    w.byte(b'\n');
}

fn put_lines(w: &mut Writer, roles: &[u8])
    ensures { Writes w.old w.new (role_lines 0 roles.now) }
{
    for (row, role) in roles.iter().enumerate() {
        put_line(w, row, *role);
    }
}

// Reads the list and writes the report at the start of out; answers its length.
pub fn report_roles(list: &[u8], roles: &mut [u8], out: &mut [u8]) -> usize
    ensures printed { Printed out.old out.new result
        (roles_text (answer list.now (length roles.old))) }
    ensures roles_after { roles.new ≡ buffer (length roles.old)
        (answer list.now (length roles.old)) }
    ensures upper_bound { result ≤ 65536 }
    ensures by_index { (n p : ℕ) → answer list.now (length roles.old) ≡ refused n p →
        OneRefusal read_number list.now n p }
{
    match read_roles(list, roles) {
        Err(r) => put_refusal(out, r),
        Ok(n) => {
            let mut w = Writer::new(out);
            w.bytes(b"row role\n");
            put_lines(&mut w, &roles[..n]);
            w.at
        }
    }
}

// What is printed instead of answers.
ghost use Rattle.std.specs.Prelude.{◌+◌, ◌≤◌, length};
ghost use Rattle.printing.specs.Printed.{Adds};
ghost use Rattle.script.specs.Reply.{too_long, bad_line};

use printing::Page;

// `too long`
pub fn too_long(page: &mut Page)
    requires { page.old.len + 9 ≤ length page.old.bytes.now }
    ensures { Adds page.old too_long page.new }
{
    page.put(b"too long\n");
}

// `bad line K`
pub fn bad_line(page: &mut Page, k: u32)
    requires { page.old.len + length (bad_line k) ≤ length page.old.bytes.now }
    ensures { Adds page.old (bad_line k) page.new }
{
    page.put(b"bad line ");
    page.put_number(k);
    page.put(b"\n");
}

// Request 8, a map built from prefixes (`demand_statements/specs/Built`), and demand 1 for its call.
ghost use Rattle.std.specs.Prelude.{◌≡◌, take};
ghost use Rattle.demand_statements.specs.Built.{Builds, Built};

use corbastrigo::builds::corbastrigo_build;

// A map built. What is said of it is said of the bytes written.
pub fn built(records: &[u8], given: u32, width: u32, out: &mut [u8], written: &mut usize) -> u8
    ensures built { result ≡ 0 → Built records.now given width (take written.new out.new) }
    ensures refused { Builds records.now given width out.old out.new result written.old written.new }
{
    corbastrigo_build(records, given, width, out, written)
}

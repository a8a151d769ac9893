// The class reader and the jar reader. The answer is the number of bytes written.
ghost use Rattle.host.specs.Reader.{ClassTold, JarTold};

use crate::reply::tell_number;
use class_reader::class_file::from_class_file;
use records::jar::automatic_from_jar_name;

// Writes the records of the module that a class file describes.
#[tactic(auto, using(crate::proofs::reader::Laws::class_laws))]
#[unsafe(no_mangle)]
pub extern "C" fn saqhovune_from_class_file(
    file: &[u8],
    out: &mut [u8],
    particulars: &mut [u64; 4],
) -> u64
    ensures { ClassTold file.now out.old out.new particulars.new result }
{
    tell_number(particulars, from_class_file(file, out))
}

// Writes the records of an automatic module.
#[unsafe(no_mangle)]
pub extern "C" fn saqhovune_automatic_from_jar_name(
    jar: &[u8],
    given: bool,
    manifest: &[u8],
    packages: &[u8],
    out: &mut [u8],
    particulars: &mut [u64; 4],
) -> u64
    ensures { JarTold jar.now given manifest.now packages.now out.old out.new particulars.new result }
{
    tell_number(
        particulars,
        automatic_from_jar_name(jar, given.then_some(manifest), packages, out),
    )
}

//! The texts that are asked for by a word of their own.

ghost use Rattle.std.specs.Prelude.{◌≡◌, option_map};
ghost use Rattle.lk_ld.specs.Notices.{notice_in};

use lk_report::NameList;

/// What `--help` prints.
const HELP: &str = "\
usage: lk_ld [OPTION ..] IN .. [--start-lib IN .. --end-lib]
       lk_ld --help | --version

Links the x86-64 object files IN into a static program. An object between
--start-lib and --end-lib is linked where it defines a name that is wanted.

  -o OUT                  where the program goes (a.out)
  -e NAME, --entry=NAME   the symbol at which it begins (_start)
  --incremental-patch=N   the free room in its sections, 0 to 500 percent (10)

Libraries (-l), shared objects, updates (--incremental, --incremental-update)
and references by way of a table of addresses (GOT, PLT of shared functions)
are answered with `not built yet`.

One line on standard output says how the link ended, or one for each fault,
and the exit status is
0 linked                  3 a file cannot be read     6 a limit is exceeded
1 faults of the inputs    4 the output failed         7 not updated
2 a faulty word           5 no memory                 8 not built yet
Where the system refused a file, standard error has its reason.
";

/// What `--version` prints.
const VERSION: &str = "lk_ld 0.1.0, an incremental linker for x86-64 ELF\n";

/// The text that the words ask for, where `--help` or `--version` is the only word.
pub fn notice_of(words: &NameList) -> Option<&'static str>
    ensures { option_map (λ text. text.now) result ≡ notice_in words.now }
{
    match words.as_slice() {
        [word] => {
            if word.as_slice() == b"--help".as_slice() {
                Some(HELP)
            } else if word.as_slice() == b"--version".as_slice() {
                Some(VERSION)
            } else {
                None
            }
        }
        _ => None,
    }
}

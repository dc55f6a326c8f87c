//! Words that other programs of this kind take.

use crate::words::asking::{expect_each, expect_values};

/// Lines with such a word, and what is said of it.
const WORDS_OF_OTHERS: &str = "|--arch|amd64|-e => |'-e'|hint: write --explain
|-f|--arch|amd64 => |'-f'|hint: write --failures
|--arch|amd64|-s => |'-s'|hint: write --successes
|-a|amd64 => |'-a'|hint: write --arch A
|--deb-native-arch|amd64 => |'--deb-native-arch'|hint: write --arch A
|--deb-native-arch=amd64 => |'--deb-native-arch'|hint: write --arch A
|--arch|amd64|--summary => |'--summary'|hint: write --causes
|--arch|amd64|--deb-ignore-essential => |'--deb-ignore-essential'|hint: write --ignore-essential
|--arch|amd64|--json => |'--json'|hint: write --format json
|--arch|amd64|--checkonly|a,|b => |'b'|hint: write names with commas between them, and no spaces
|--arch|amd64|--checkonly|a, b => |invalid value|and no spaces
|--arch|amd64|--bg|a|--bg|b => |'--bg <FILE>'|hint: one background is read, write --bg <(cat FILE FILE)
|--arch|x86_64 => |x86_64|Debian calls it amd64
|--arch|amd64|--nocheck|others => |'--nocheck'|hint: write --bg FILE
|--arch|amd64|--progress => |'--progress'|hint: leave it out, progress is shown where standard error is a terminal
|--arch|amd64|-o|report => |'-o'|hint: the report goes to standard output, write > FILE
|--arch|amd64|--outfile=report => |'--outfile'|hint: the report goes to standard output, write > FILE
|--arch|amd64|--fg|Packages => |'--fg'|hint: the index comes on standard input, write debcheck --arch A < Packages
|--arch|amd64|--fg=Packages => |'--fg'|hint: the index comes on standard input
|--arch|amd64|Packages => |'Packages'|hint: the index comes on standard input
|amd64|Packages => |'amd64'|hint: the index comes on standard input
|--arch|amd64|-m => |'-m'|hint: debcheck has no such option, see DIFFERENCES
|--arch|amd64|--latest => |'--latest'|hint: debcheck has no such option
|--arch|amd64|--latest=1 => |'--latest'|hint: debcheck has no such option
|--arch|amd64|--coinst|a,b => |'--coinst'|hint: debcheck has no such option
|--arch|amd64|--coinst=a,b => |'--coinst'|hint: debcheck has no such option
|--arch|amd64|-tdeb => |'-t'|hint: debcheck has no such option";

/// Lines that are refused, and no program's words are in them.
const NO_HINTS: &str = "|--arch|amd64|--frobnicate => no hint
|--arch|amd64|-q => no hint
|--arch|amd64|--explain=yes => no hint
|--arch|all => no hint";

/// The words of dose-debcheck that have no counterpart.
const NO_SUCH: &str =
    "-c/-d/-m/-t/-v/--coinst/--compare/--dot/--explain-condense/--explain-minimal/--fields/--latest/--lowmem/--outdir/--deb-builds-from\
/--deb-foreign-archs/--opam-profiles/--opam-switch/--opam-switches/--timers/--verbose";

/// And those of installcheck.
const NONE_AT_ALL: &str = "--exclude/--withobsoletes/--withsrc";

#[test]
fn a_word_of_another_program_is_refused_with_what_to_write(rt: HostRuntime) {
    expect_each(&rt, &[WORDS_OF_OTHERS, NO_HINTS]);
    let manual =
        "|hint: debcheck has no such option, see DIFFERENCES FROM DOSE-DEBCHECK in its manual page\n";
    expect_values(&rt, "|--arch|amd64|", NO_SUCH, manual);
    expect_values(
        &rt,
        "|--arch|amd64|",
        NONE_AT_ALL,
        "|hint: debcheck has no such option\n",
    );
}

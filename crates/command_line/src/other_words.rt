//! Words that other programs of this kind take, dose-debcheck and installcheck, and what stands for them here.

/// Where the text is read from that those take as a file.
const FROM_INPUT: &str = "the index comes on standard input, write debcheck --arch A < Packages";

const NO_SUCH: &str =
    "debcheck has no such option, see DIFFERENCES FROM DOSE-DEBCHECK in its manual page";

const NO_SUCH_WORDS: &str = "-c -d -m -t -v --coinst --compare --dot --explain-condense \
    --explain-minimal --fields --latest --lowmem --outdir --deb-builds-from --deb-foreign-archs \
    --opam-profiles --opam-switch --opam-switches --timers --verbose";

// Of installcheck's, which that page doesn't speak of.
const NONE_AT_ALL: &str = "debcheck has no such option";

const TO_OUTPUT: &str = "the report goes to standard output, write > FILE";

const NO_PROGRESS: &str = "leave it out, progress is shown where standard error is a terminal";

/// The words of those programs with blanks between them, each with what to write in its place, or that there is nothing.
static OTHER_WORDS: [(&str, &str); 13] = [
    ("-a --deb-native-arch", "write --arch A"),
    ("-e", "write --explain"),
    ("-f", "write --failures"),
    ("-s", "write --successes"),
    ("--summary", "write --causes"),
    ("--deb-ignore-essential", "write --ignore-essential"),
    ("-o --outfile", TO_OUTPUT),
    ("--fg", FROM_INPUT),
    ("--json", "write --format json"),
    ("--nocheck", "write --bg FILE"),
    ("--progress", NO_PROGRESS),
    (NO_SUCH_WORDS, NO_SUCH),
    ("--exclude --withobsoletes --withsrc", NONE_AT_ALL),
];

/// What to write in the place of a word of those programs, or that there is nothing; none of another word.
pub(crate) fn advice_on(word: &str) -> Option<&'static str> {
    for &(others, advice) in &OTHER_WORDS {
        if others.split(' ').any(|other| other == word) {
            return Some(advice);
        }
    }
    if word.starts_with('-') {
        None
    } else {
        Some(FROM_INPUT)
    }
}

/// Whether a word stands behind one that ends with a comma.
fn follows_a_comma(word: &str, words: &[String]) -> bool {
    let mut before = "";
    for next in words {
        if before.ends_with(',') && next.as_str() == word {
            return true;
        }
        before = next.as_str();
    }
    false
}

/// The same of the word that the text of a refusal of these words names as one that no option takes; or of a background that is given twice.
pub(crate) fn advice_in(refusal: &str, words: &[String]) -> Option<&'static str> {
    let twice = "'--bg <FILE>' cannot be used multiple times";
    if refusal.split_once(twice).is_some() {
        return Some("one background is read, write --bg <(cat FILE FILE)");
    }
    let (_, behind) = refusal.split_once("unexpected argument '")?;
    let (word, _) = behind.split_once("' found")?;
    if follows_a_comma(word, words) {
        return Some("write names with commas between them, and no spaces");
    }
    advice_on(word)
}

//! What each word of a solver asks for: a table of words, and lists of those that are passed over.

ghost use Rattle.std.specs.Prelude.{◌≡◌, map};
ghost use Rattle.command_line.specs.SolverTable.{is_known as is_known_word, is_listed_behind, lines_have, long_names as long_lines, meaning_in, meaning_of as meaning_of_name, rows as table, short_names as short_lines};
ghost use Rattle.command_line.specs.inner.SolverRows.{row_of};

use crate::solver_words::lists::is_listed;

/// Why a word is passed over, in whole or with its value.
#[derive(Clone, Copy, Debug, PartialEq, Eq)]
pub enum Why {
    /// No such word is known.
    Unknown,
    /// Only the script `satcluster-solver` has it.
    Script,
    /// The time of a search is not limited.
    Time,
    /// A search is not limited by conflicts or decisions.
    Counts,
    /// No file but that of a proof or a result is written.
    Files,
    /// The answer is printed.
    Output,
    /// No solution is read.
    Solution,
    /// A proof has one format.
    Format,
    /// It is no limit of lemmas.
    OutOfRange,
    /// It is one file too many.
    OtherFile,
}

/// What a word asks for.
#[derive(Clone, Copy, Debug, PartialEq, Eq)]
pub enum Meaning {
    /// Whether `c` lines are left out of what is printed.
    Quiet(bool),
    /// Whether an assignment is printed.
    Witness(bool),
    /// What a solver can do, and no answer.
    Help,
    /// A limit of lemmas, which is the word's value.
    Limit,
    /// Nothing: it says how another solver searches.
    Known,
    /// Nothing, and that is told.
    Told(Why),
    /// Nothing, and that is told; it has a value.
    Valued(Why),
}

/// Words, and what each of them asks for.
#[derive(Clone, Copy)]
pub(crate) struct Row {
    words: &'static str,
    meaning: Meaning,
}

/// The words that ask for something, that are passed over and told, or that have neither of the fronts of the lists below.
static ROWS: &[Row] = &[
    Row {
        words: "-q --quiet",
        meaning: Meaning::Quiet(true),
    },
    Row {
        words: "--no-quiet",
        meaning: Meaning::Quiet(false),
    },
    Row {
        words: "--witness",
        meaning: Meaning::Witness(true),
    },
    Row {
        words: "-n --no-witness",
        meaning: Meaning::Witness(false),
    },
    Row {
        words: "-h --help --help-verb --version",
        meaning: Meaning::Help,
    },
    Row {
        words: "--limit",
        meaning: Meaning::Limit,
    },
    Row {
        words: "-t --time -cpu-lim",
        meaning: Meaning::Valued(Why::Time),
    },
    Row {
        words: "--jobs --depth --program --keep",
        meaning: Meaning::Valued(Why::Script),
    },
    Row {
        words: "-c -d",
        meaning: Meaning::Valued(Why::Counts),
    },
    Row {
        words: "--conflicts --decisions",
        meaning: Meaning::Told(Why::Counts),
    },
    Row {
        words: "-e -o",
        meaning: Meaning::Valued(Why::Files),
    },
    Row {
        words: "-dimacs",
        meaning: Meaning::Told(Why::Files),
    },
    Row {
        words: "-w",
        meaning: Meaning::Valued(Why::Output),
    },
    Row {
        words: "-r",
        meaning: Meaning::Valued(Why::Solution),
    },
    Row {
        words: "--binary --drat --frat --idrup --lidrup --no-lrat --veripb",
        meaning: Meaning::Told(Why::Format),
    },
    Row {
        words: "--lrat --no-binary --no-drat",
        meaning: Meaning::Known,
    },
    Row {
        words: "-f -l -s -v --banner --basic --color --colors --default --force --log --no-color --no-colors --partial --plain --relaxed",
        meaning: Meaning::Known,
    },
    Row {
        words: "--sat --statistics --stats --strict --unsat --verbose",
        meaning: Meaning::Known,
    },
    Row {
        words: "-L -L0 -L1 -L2 -L3 -L4 -L5 -L6 -L7 -L8 -L9 -O -O0 -O1 -O2 -O3 -O4 -O5 -O6 -O7 -O8 -O9",
        meaning: Meaning::Known,
    },
    Row {
        words: "-P -P0 -P1 -P2 -P3 -P4 -P5 -P6 -P7 -P8 -P9",
        meaning: Meaning::Known,
    },
];

/// The options of CaDiCaL 2.1.3 and Kissat 4.0.4, after `--` or `--no-`, which change how a solver searches, and not what its answer means.
static LONG_NAMES: &[&str] = &[
    "ands arena arenacompact arenasort arenatype backbone backboneeffort backbonemaxrounds backbonerounds bigbigfraction block",
    "blockmaxclslim blockminclslim blockocclim bump bumpreason bumpreasondepth bumpreasons bumpreasonslimit bumpreasonsrate check",
    "checkassumptions checkconstraint checkfailed checkfrozen checkproof checkwitness chrono chronoalways chronolevelim chronolevels",
    "chronoreusetrail compact compactint compactlim compactmin condition conditionint conditionmaxeff conditionmaxrat conditionmineff",
    "conditionreleff congruence congruenceandarity congruenceands congruencebinaries congruenceites congruenceonce congruencexorarity",
    "congruencexorcounts congruencexors cover covermaxclslim covermaxeff coverminclslim covermineff coverreleff decay decompose",
    "decomposerounds deduplicate definitioncores definitions definitionticks defraglim defragsize eagersubsume eagersubsumelim elim",
    "elimands elimaxeff elimbackward elimboundmax elimboundmin elimclslim elimequivs eliminate eliminatebound eliminateclslim",
    "eliminateeffort eliminateinit eliminateint eliminateocclim eliminaterounds elimineff elimint elimites elimlimited elimocclim",
    "elimprod elimreleff elimrounds elimsubst elimsum elimxorlim elimxors emafast emagluefast emaglueslow emajump emalevel emasize",
    "emaslow ematrailfast ematrailslow equivalences exteagerreasons exteagerrecalc externallrat extract factor factorcandrounds",
    "factordelay factoreffort factorhops factoriniticks factorsize factorstructural fastel fastelclslim fastelim fasteloccs",
    "fastelrounds fastelsub flush flushfactor flushint flushproof focusedtiers forcephase forward forwardeffort ifthenelse ilb",
    "ilbassumptions incremental inprocessing instantiate instantiateclslim instantiateocclim instantiateonce jumpreasons lucky",
    "luckyearly luckylate mineffort minimize minimizedepth minimizeticks modeinit modeint otfs phase phasesaving preprocess",
    "preprocessbackbone preprocesscongruence preprocessfactor preprocessprobe preprocessrounds preprocessweep probe probehbr",
    "probeinit probeint probemaxeff probemineff probereleff proberounds profile promote radixsortlim randec randecfocused randecinit",
    "randecint randeclength randecstable realtime reduce reducehigh reduceinit reduceint reducelow reducetarget reducetier1glue",
    "reducetier2glue reluctant reluctantint reluctantlim reluctantmax reorder reorderinit reorderint reordermaxsize rephase",
    "rephaseinit rephaseint report reportall reportsolve restart restartint restartmargin restartreusetrail restoreall restoreflush",
    "reverse score scorefactor seed shrink shrinkreap shuffle shufflequeue shufflerandom shufflescores simplify smallclauses",
    "stabilize stabilizefactor stabilizeint stabilizemaxint stabilizeonly stable statistics stats substitute substituteeffort",
    "substituterounds subsume subsumebinlim subsumeclslim subsumeint subsumelimited subsumemaxeff subsumemineff subsumeocclim",
    "subsumereleff subsumestr sweep sweepclauses sweepcomplete sweepdepth sweepeffort sweepfliprounds sweepmaxclauses sweepmaxdepth",
    "sweepmaxvars sweeprand sweepvars target terminateint ternary ternarymaxadd ternarymaxeff ternarymineff ternaryocclim",
    "ternaryreleff ternaryrounds tier1 tier1relative tier2 tier2relative transitive transitiveeffort transitivekeep transred",
    "transredmaxeff transredmineff transredreleff tumble verbose vivify vivifyeffort vivifyfocusedtiers vivifyinst vivifyirr",
    "vivifymaxeff vivifymineff vivifyonce vivifyredeff vivifyreleff vivifysort vivifytier1 vivifytier2 vivifytier3 walk walkeffort",
    "walkinitially walkmaxeff walkmineff walknonstable walkredundant walkreleff warmup",
];

/// The options of MiniSat 2.2.1, after `-` or `-no-`.
static SHORT_NAMES: &[&str] = &[
    "asymm ccmin-mode cl-lim cla-decay elim gc-frac grow luby mem-lim phase-saving pre rcheck rfirst rinc rnd-freq rnd-init rnd-seed",
    "simp-gc-frac strict sub-lim var-decay verb",
];

/// The table of words. It is a function and no constant, so that proofs of its callers do not unfold the table.
fn rows() -> &'static [Row]
    ensures { map row_of result.now ≡ table }
{
    ROWS
}

/// The options of CaDiCaL and Kissat, in lines.
fn long_names() -> &'static [&'static str]
    ensures { map (λ line. line.now) result.now ≡ long_lines }
{
    LONG_NAMES
}

/// The options of MiniSat, in lines.
fn short_names() -> &'static [&'static str]
    ensures { map (λ line. line.now) result.now ≡ short_lines }
{
    SHORT_NAMES
}

/// Whether one of these lines lists a word.
fn is_in_lines(lines: &[&str], word: &str) -> bool
    ensures { result ≡ lines_have (map (λ line. line.now) lines.now) word.now }
{
    for line in lines {
        if is_listed(line, word) {
            return true;
        }
    }
    false
}

/// Whether a word is `front` and then a word that one of these lines lists.
fn is_behind(front: &str, lines: &[&str], word: &str) -> bool
    ensures { result ≡ is_listed_behind front.now (map (λ line. line.now) lines.now) word.now }
{
    match word.strip_prefix(front) {
        Some(rest) => is_in_lines(lines, rest),
        None => false,
    }
}

/// Whether a word is an option of another solver that is passed over.
fn is_known(word: &str) -> bool
    ensures { result ≡ is_known_word word.now }
{
    is_behind("--", long_names(), word)
        || is_behind("--no-", long_names(), word)
        || is_behind("-", short_names(), word)
        || is_behind("-no-", short_names(), word)
}

/// What a word asks for by these rows; None if none of them has it.
fn found_in(rows: &[Row], word: &str) -> Option<Meaning>
    ensures { result ≡ meaning_in (map row_of rows.now) word.now }
{
    for row in rows {
        if is_listed(row.words, word) {
            return Some(row.meaning);
        }
    }
    None
}

/// What a word asks for, which has no value joined to it.
pub(crate) fn meaning_of(word: &str) -> Meaning
    ensures { result ≡ meaning_of_name word.now }
{
    match found_in(rows(), word) {
        Some(meaning) => meaning,
        None if is_known(word) => Meaning::Known,
        None => Meaning::Told(Why::Unknown),
    }
}

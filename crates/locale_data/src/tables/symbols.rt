//! The numbering systems, and the locales with their symbols.
// Written by tools/locales/make_tables.py from data of CLDR 48; their license is tools/locales/LICENSE. Do not edit.
use super::rows::TableRange;
use super::rows::symbols::Symbol::*;
use super::rows::symbols::{DecimalSystem, LocaleSymbols, SymbolSet};
use decimal_format::GroupingSizes;

#[rattlefmt::skip]
const THREES: GroupingSizes = GroupingSizes { primary: 3, secondary: 0, min_grouping: 1 };

#[rattlefmt::skip]
const THREES_MIN_2: GroupingSizes = GroupingSizes { primary: 3, secondary: 0, min_grouping: 2 };

#[rattlefmt::skip]
const THREES_MIN_3: GroupingSizes = GroupingSizes { primary: 3, secondary: 0, min_grouping: 3 };

#[rattlefmt::skip]
const THREE_AND_TWOS: GroupingSizes = GroupingSizes { primary: 3, secondary: 2, min_grouping: 1 };

#[rattlefmt::skip]
const TWOS: GroupingSizes = GroupingSizes { primary: 2, secondary: 0, min_grouping: 1 };

#[rattlefmt::skip]
const NO_GROUPS: GroupingSizes = GroupingSizes { primary: 0, secondary: 0, min_grouping: 1 };

#[rattlefmt::skip]
const ARAB: SymbolSet = SymbolSet {
    decimal: ArabicDecimal, grouping: ArabicThousands, minus: ArabicHyphen, plus: ArabicPlus,
};

#[rattlefmt::skip]
const ARABEXT: SymbolSet = SymbolSet {
    decimal: ArabicDecimal, grouping: ArabicThousands, minus: EnclosedHyphen, plus: EnclosedPlus,
};

#[rattlefmt::skip]
const AF: SymbolSet = SymbolSet {
    decimal: Comma, grouping: NoBreakSpace, minus: Hyphen, plus: Plus,
};

#[rattlefmt::skip]
const AK: SymbolSet = SymbolSet {
    decimal: Period, grouping: Comma, minus: Hyphen, plus: Plus,
};

#[rattlefmt::skip]
const AR: SymbolSet = SymbolSet {
    decimal: Period, grouping: Comma, minus: LeftHyphen, plus: LeftPlus,
};

#[rattlefmt::skip]
const AR_DZ: SymbolSet = SymbolSet {
    decimal: Comma, grouping: Period, minus: LeftHyphen, plus: LeftPlus,
};

#[rattlefmt::skip]
const AST: SymbolSet = SymbolSet {
    decimal: Comma, grouping: Period, minus: Hyphen, plus: Plus,
};

#[rattlefmt::skip]
const BA: SymbolSet = SymbolSet {
    decimal: Period, grouping: NoBreakSpace, minus: Hyphen, plus: Plus,
};

#[rattlefmt::skip]
const CKB: SymbolSet = SymbolSet {
    decimal: Period, grouping: Comma, minus: Hyphen, plus: LeftPlus,
};

#[rattlefmt::skip]
const DE_CH: SymbolSet = SymbolSet {
    decimal: Period, grouping: Apostrophe, minus: Hyphen, plus: Plus,
};

#[rattlefmt::skip]
const EN_FR: SymbolSet = SymbolSet {
    decimal: Comma, grouping: NarrowNoBreakSpace, minus: Hyphen, plus: Plus,
};

#[rattlefmt::skip]
const ET: SymbolSet = SymbolSet {
    decimal: Comma, grouping: NoBreakSpace, minus: Minus, plus: Plus,
};

#[rattlefmt::skip]
const EU: SymbolSet = SymbolSet {
    decimal: Comma, grouping: Period, minus: Minus, plus: Plus,
};

#[rattlefmt::skip]
const FA: SymbolSet = SymbolSet {
    decimal: Period, grouping: Comma, minus: LeftMinus, plus: LeftPlus,
};

#[rattlefmt::skip]
const FF_ADLM: SymbolSet = SymbolSet {
    decimal: Period, grouping: ReversedComma, minus: Hyphen, plus: Plus,
};

#[rattlefmt::skip]
const GSW: SymbolSet = SymbolSet {
    decimal: Period, grouping: Apostrophe, minus: Minus, plus: Plus,
};

#[rattlefmt::skip]
const KS: SymbolSet = SymbolSet {
    decimal: Period, grouping: ArabicComma, minus: Hyphen, plus: Plus,
};

#[rattlefmt::skip]
const LMO: SymbolSet = SymbolSet {
    decimal: Comma, grouping: Apostrophe, minus: Hyphen, plus: Plus,
};

#[rattlefmt::skip]
const PS: SymbolSet = SymbolSet {
    decimal: Comma, grouping: Period, minus: LeftMinus, plus: LeftPlus,
};

#[rattlefmt::skip]
const AST_ARAB: SymbolSet = SymbolSet {
    decimal: ArabicDecimal, grouping: ArabicThousands, minus: RightHyphen, plus: RightPlus,
};

#[rattlefmt::skip]
const AZ_ARAB: SymbolSet = SymbolSet {
    decimal: ArabicDecimal, grouping: Comma, minus: Hyphen, plus: Plus,
};

#[rattlefmt::skip]
const EU_ARAB: SymbolSet = SymbolSet {
    decimal: ArabicDecimal, grouping: ArabicThousands, minus: Hyphen, plus: Plus,
};

#[rattlefmt::skip]
const FR_ARAB: SymbolSet = SymbolSet {
    decimal: ArabicDecimal, grouping: ArabicThousands, minus: ArabicHyphen, plus: RightPlus,
};

#[rattlefmt::skip]
const NB_ARAB: SymbolSet = SymbolSet {
    decimal: ArabicDecimal, grouping: NoBreakSpace, minus: ArabicMinus, plus: ArabicPlus,
};

#[rattlefmt::skip]
const SD_ARAB: SymbolSet = SymbolSet {
    decimal: Period, grouping: ArabicThousands, minus: ArabicHyphen, plus: ArabicPlus,
};

#[rattlefmt::skip]
const UR_ARAB: SymbolSet = SymbolSet {
    decimal: ArabicComma, grouping: Comma, minus: ArabicHyphen, plus: Plus,
};

#[rattlefmt::skip]
const ZH_HANT_ARAB: SymbolSet = SymbolSet {
    decimal: ArabicDecimal, grouping: ArabicThousands, minus: Hyphen, plus: ArabicPlus,
};

#[rattlefmt::skip]
const AZ_ARABEXT: SymbolSet = SymbolSet {
    decimal: Comma, grouping: ArabicThousands, minus: Hyphen, plus: Plus,
};

#[rattlefmt::skip]
const FA_ARABEXT: SymbolSet = SymbolSet {
    decimal: ArabicDecimal, grouping: ArabicThousands, minus: LeftMinus, plus: LeftPlus,
};

#[rattlefmt::skip]
const GD_ARABEXT: SymbolSet = SymbolSet {
    decimal: ArabicDecimal, grouping: ArabicThousands, minus: Hyphen, plus: EnclosedPlus,
};

#[rattlefmt::skip]
const HA_ARABEXT: SymbolSet = SymbolSet {
    decimal: Period, grouping: ArabicThousands, minus: Hyphen, plus: Plus,
};

#[rattlefmt::skip]
const MS_ARABEXT: SymbolSet = SymbolSet {
    decimal: Period, grouping: ArabicThousands, minus: EnclosedHyphen, plus: EnclosedPlus,
};

#[rattlefmt::skip]
const NB_ARABEXT: SymbolSet = SymbolSet {
    decimal: Comma, grouping: NoBreakSpace, minus: EnclosedMinus, plus: EnclosedPlus,
};

#[rattlefmt::skip]
const SD_ARABEXT: SymbolSet = SymbolSet {
    decimal: Period, grouping: ArabicComma, minus: EnclosedHyphen, plus: EnclosedPlus,
};

#[rattlefmt::skip]
const ZH_HANT_ARABEXT: SymbolSet = SymbolSet {
    decimal: ArabicDecimal, grouping: ArabicThousands, minus: EnclosedHyphen, plus: PlusLeft,
};

/// The decimal numbering systems.
#[rattlefmt::skip]
pub static NUMBERING_SYSTEMS: [DecimalSystem; 78] = [
    DecimalSystem {
        name: *b"adlm            ",
        digits: [
            '\u{1e950}', '\u{1e951}', '\u{1e952}', '\u{1e953}', '\u{1e954}',
            '\u{1e955}', '\u{1e956}', '\u{1e957}', '\u{1e958}', '\u{1e959}',
        ],
        symbols: None,
        rows: TableRange(0, 1),
    },
    DecimalSystem {
        name: *b"ahom            ",
        digits: [
            '𑜰', '𑜱', '𑜲', '𑜳', '𑜴', '𑜵', '𑜶', '𑜷', '𑜸', '𑜹',
        ],
        symbols: None,
        rows: TableRange(0, 0),
    },
    DecimalSystem {
        name: *b"arab            ",
        digits: [
            '\u{660}', '\u{661}', '\u{662}', '\u{663}', '\u{664}',
            '\u{665}', '\u{666}', '\u{667}', '\u{668}', '\u{669}',
        ],
        symbols: Some(ARAB),
        rows: TableRange(1, 27),
    },
    DecimalSystem {
        name: *b"arabext         ",
        digits: [
            '۰', '۱', '۲', '۳', '۴', '۵', '۶', '۷', '۸', '۹',
        ],
        symbols: Some(ARABEXT),
        rows: TableRange(27, 50),
    },
    DecimalSystem {
        name: *b"bali            ",
        digits: [
            '᭐', '᭑', '᭒', '᭓', '᭔', '᭕', '᭖', '᭗', '᭘', '᭙',
        ],
        symbols: None,
        rows: TableRange(50, 51),
    },
    DecimalSystem {
        name: *b"beng            ",
        digits: [
            '০', '১', '২', '৩', '৪', '৫', '৬', '৭', '৮', '৯',
        ],
        symbols: None,
        rows: TableRange(51, 52),
    },
    DecimalSystem {
        name: *b"bhks            ",
        digits: [
            '𑱐', '𑱑', '𑱒', '𑱓', '𑱔', '𑱕', '𑱖', '𑱗', '𑱘', '𑱙',
        ],
        symbols: None,
        rows: TableRange(0, 0),
    },
    DecimalSystem {
        name: *b"brah            ",
        digits: [
            '𑁦', '𑁧', '𑁨', '𑁩', '𑁪', '𑁫', '𑁬', '𑁭', '𑁮', '𑁯',
        ],
        symbols: None,
        rows: TableRange(52, 53),
    },
    DecimalSystem {
        name: *b"cakm            ",
        digits: [
            '𑄶', '𑄷', '𑄸', '𑄹', '𑄺', '𑄻', '𑄼', '𑄽', '𑄾', '𑄿',
        ],
        symbols: None,
        rows: TableRange(53, 54),
    },
    DecimalSystem {
        name: *b"cham            ",
        digits: [
            '꩐', '꩑', '꩒', '꩓', '꩔', '꩕', '꩖', '꩗', '꩘', '꩙',
        ],
        symbols: None,
        rows: TableRange(54, 55),
    },
    DecimalSystem {
        name: *b"deva            ",
        digits: [
            '०', '१', '२', '३', '४', '५', '६', '७', '८', '९',
        ],
        symbols: None,
        rows: TableRange(55, 59),
    },
    DecimalSystem {
        name: *b"diak            ",
        digits: [
            '𑥐', '𑥑', '𑥒', '𑥓', '𑥔', '𑥕', '𑥖', '𑥗', '𑥘', '𑥙',
        ],
        symbols: None,
        rows: TableRange(0, 0),
    },
    DecimalSystem {
        name: *b"fullwide        ",
        digits: [
            '０', '１', '２', '３', '４', '５', '６', '７', '８', '９',
        ],
        symbols: None,
        rows: TableRange(59, 60),
    },
    DecimalSystem {
        name: *b"gara            ",
        digits: [
            '𐵀', '𐵁', '𐵂', '𐵃', '𐵄', '𐵅', '𐵆', '𐵇', '𐵈', '𐵉',
        ],
        symbols: None,
        rows: TableRange(0, 0),
    },
    DecimalSystem {
        name: *b"gong            ",
        digits: [
            '𑶠', '𑶡', '𑶢', '𑶣', '𑶤', '𑶥', '𑶦', '𑶧', '𑶨', '𑶩',
        ],
        symbols: None,
        rows: TableRange(60, 61),
    },
    DecimalSystem {
        name: *b"gonm            ",
        digits: [
            '𑵐', '𑵑', '𑵒', '𑵓', '𑵔', '𑵕', '𑵖', '𑵗', '𑵘', '𑵙',
        ],
        symbols: None,
        rows: TableRange(61, 62),
    },
    DecimalSystem {
        name: *b"gujr            ",
        digits: [
            '૦', '૧', '૨', '૩', '૪', '૫', '૬', '૭', '૮', '૯',
        ],
        symbols: None,
        rows: TableRange(62, 63),
    },
    DecimalSystem {
        name: *b"gukh            ",
        digits: [
            '𖄰', '𖄱', '𖄲', '𖄳', '𖄴', '𖄵', '𖄶', '𖄷', '𖄸', '𖄹',
        ],
        symbols: None,
        rows: TableRange(0, 0),
    },
    DecimalSystem {
        name: *b"guru            ",
        digits: [
            '੦', '੧', '੨', '੩', '੪', '੫', '੬', '੭', '੮', '੯',
        ],
        symbols: None,
        rows: TableRange(63, 64),
    },
    DecimalSystem {
        name: *b"hanidec         ",
        digits: [
            '〇', '一', '二', '三', '四', '五', '六', '七', '八', '九',
        ],
        symbols: None,
        rows: TableRange(64, 65),
    },
    DecimalSystem {
        name: *b"hmng            ",
        digits: [
            '𖭐', '𖭑', '𖭒', '𖭓', '𖭔', '𖭕', '𖭖', '𖭗', '𖭘', '𖭙',
        ],
        symbols: None,
        rows: TableRange(0, 0),
    },
    DecimalSystem {
        name: *b"hmnp            ",
        digits: [
            '𞅀', '𞅁', '𞅂', '𞅃', '𞅄', '𞅅', '𞅆', '𞅇', '𞅈', '𞅉',
        ],
        symbols: None,
        rows: TableRange(65, 66),
    },
    DecimalSystem {
        name: *b"java            ",
        digits: [
            '꧐', '꧑', '꧒', '꧓', '꧔', '꧕', '꧖', '꧗', '꧘', '꧙',
        ],
        symbols: None,
        rows: TableRange(66, 67),
    },
    DecimalSystem {
        name: *b"kali            ",
        digits: [
            '꤀', '꤁', '꤂', '꤃', '꤄', '꤅', '꤆', '꤇', '꤈', '꤉',
        ],
        symbols: None,
        rows: TableRange(67, 68),
    },
    DecimalSystem {
        name: *b"kawi            ",
        digits: [
            '𑽐', '𑽑', '𑽒', '𑽓', '𑽔', '𑽕', '𑽖', '𑽗', '𑽘', '𑽙',
        ],
        symbols: None,
        rows: TableRange(0, 0),
    },
    DecimalSystem {
        name: *b"khmr            ",
        digits: [
            '០', '១', '២', '៣', '៤', '៥', '៦', '៧', '៨', '៩',
        ],
        symbols: None,
        rows: TableRange(68, 70),
    },
    DecimalSystem {
        name: *b"knda            ",
        digits: [
            '೦', '೧', '೨', '೩', '೪', '೫', '೬', '೭', '೮', '೯',
        ],
        symbols: None,
        rows: TableRange(70, 71),
    },
    DecimalSystem {
        name: *b"krai            ",
        digits: [
            '𖵰', '𖵱', '𖵲', '𖵳', '𖵴', '𖵵', '𖵶', '𖵷', '𖵸', '𖵹',
        ],
        symbols: None,
        rows: TableRange(0, 0),
    },
    DecimalSystem {
        name: *b"lana            ",
        digits: [
            '᪀', '᪁', '᪂', '᪃', '᪄', '᪅', '᪆', '᪇', '᪈', '᪉',
        ],
        symbols: None,
        rows: TableRange(71, 72),
    },
    DecimalSystem {
        name: *b"lanatham        ",
        digits: [
            '᪐', '᪑', '᪒', '᪓', '᪔', '᪕', '᪖', '᪗', '᪘', '᪙',
        ],
        symbols: None,
        rows: TableRange(72, 73),
    },
    DecimalSystem {
        name: *b"laoo            ",
        digits: [
            '໐', '໑', '໒', '໓', '໔', '໕', '໖', '໗', '໘', '໙',
        ],
        symbols: None,
        rows: TableRange(73, 74),
    },
    DecimalSystem {
        name: *b"latn            ",
        digits: [
            '0', '1', '2', '3', '4', '5', '6', '7', '8', '9',
        ],
        symbols: None,
        rows: TableRange(0, 0),
    },
    DecimalSystem {
        name: *b"lepc            ",
        digits: [
            '᱀', '᱁', '᱂', '᱃', '᱄', '᱅', '᱆', '᱇', '᱈', '᱉',
        ],
        symbols: None,
        rows: TableRange(74, 75),
    },
    DecimalSystem {
        name: *b"limb            ",
        digits: [
            '᥆', '᥇', '᥈', '᥉', '᥊', '᥋', '᥌', '᥍', '᥎', '᥏',
        ],
        symbols: None,
        rows: TableRange(75, 76),
    },
    DecimalSystem {
        name: *b"mathbold        ",
        digits: [
            '𝟎', '𝟏', '𝟐', '𝟑', '𝟒', '𝟓', '𝟔', '𝟕', '𝟖', '𝟗',
        ],
        symbols: None,
        rows: TableRange(0, 0),
    },
    DecimalSystem {
        name: *b"mathdbl         ",
        digits: [
            '𝟘', '𝟙', '𝟚', '𝟛', '𝟜', '𝟝', '𝟞', '𝟟', '𝟠', '𝟡',
        ],
        symbols: None,
        rows: TableRange(0, 0),
    },
    DecimalSystem {
        name: *b"mathmono        ",
        digits: [
            '𝟶', '𝟷', '𝟸', '𝟹', '𝟺', '𝟻', '𝟼', '𝟽', '𝟾', '𝟿',
        ],
        symbols: None,
        rows: TableRange(0, 0),
    },
    DecimalSystem {
        name: *b"mathsanb        ",
        digits: [
            '𝟬', '𝟭', '𝟮', '𝟯', '𝟰', '𝟱', '𝟲', '𝟳', '𝟴', '𝟵',
        ],
        symbols: None,
        rows: TableRange(0, 0),
    },
    DecimalSystem {
        name: *b"mathsans        ",
        digits: [
            '𝟢', '𝟣', '𝟤', '𝟥', '𝟦', '𝟧', '𝟨', '𝟩', '𝟪', '𝟫',
        ],
        symbols: None,
        rows: TableRange(0, 0),
    },
    DecimalSystem {
        name: *b"mlym            ",
        digits: [
            '൦', '൧', '൨', '൩', '൪', '൫', '൬', '൭', '൮', '൯',
        ],
        symbols: None,
        rows: TableRange(76, 77),
    },
    DecimalSystem {
        name: *b"modi            ",
        digits: [
            '𑙐', '𑙑', '𑙒', '𑙓', '𑙔', '𑙕', '𑙖', '𑙗', '𑙘', '𑙙',
        ],
        symbols: None,
        rows: TableRange(0, 0),
    },
    DecimalSystem {
        name: *b"mong            ",
        digits: [
            '᠐', '᠑', '᠒', '᠓', '᠔', '᠕', '᠖', '᠗', '᠘', '᠙',
        ],
        symbols: None,
        rows: TableRange(77, 79),
    },
    DecimalSystem {
        name: *b"mroo            ",
        digits: [
            '𖩠', '𖩡', '𖩢', '𖩣', '𖩤', '𖩥', '𖩦', '𖩧', '𖩨', '𖩩',
        ],
        symbols: None,
        rows: TableRange(0, 0),
    },
    DecimalSystem {
        name: *b"mtei            ",
        digits: [
            '꯰', '꯱', '꯲', '꯳', '꯴', '꯵', '꯶', '꯷', '꯸', '꯹',
        ],
        symbols: None,
        rows: TableRange(79, 80),
    },
    DecimalSystem {
        name: *b"mymr            ",
        digits: [
            '၀', '၁', '၂', '၃', '၄', '၅', '၆', '၇', '၈', '၉',
        ],
        symbols: None,
        rows: TableRange(80, 81),
    },
    DecimalSystem {
        name: *b"mymrepka        ",
        digits: [
            '𑛚', '𑛛', '𑛜', '𑛝', '𑛞', '𑛟', '𑛠', '𑛡', '𑛢', '𑛣',
        ],
        symbols: None,
        rows: TableRange(0, 0),
    },
    DecimalSystem {
        name: *b"mymrpao         ",
        digits: [
            '𑛐', '𑛑', '𑛒', '𑛓', '𑛔', '𑛕', '𑛖', '𑛗', '𑛘', '𑛙',
        ],
        symbols: None,
        rows: TableRange(0, 0),
    },
    DecimalSystem {
        name: *b"mymrshan        ",
        digits: [
            '႐', '႑', '႒', '႓', '႔', '႕', '႖', '႗', '႘', '႙',
        ],
        symbols: None,
        rows: TableRange(81, 82),
    },
    DecimalSystem {
        name: *b"mymrtlng        ",
        digits: [
            '꧰', '꧱', '꧲', '꧳', '꧴', '꧵', '꧶', '꧷', '꧸', '꧹',
        ],
        symbols: None,
        rows: TableRange(0, 0),
    },
    DecimalSystem {
        name: *b"nagm            ",
        digits: [
            '𞓰', '𞓱', '𞓲', '𞓳', '𞓴', '𞓵', '𞓶', '𞓷', '𞓸', '𞓹',
        ],
        symbols: None,
        rows: TableRange(0, 0),
    },
    DecimalSystem {
        name: *b"newa            ",
        digits: [
            '𑑐', '𑑑', '𑑒', '𑑓', '𑑔', '𑑕', '𑑖', '𑑗', '𑑘', '𑑙',
        ],
        symbols: None,
        rows: TableRange(0, 0),
    },
    DecimalSystem {
        name: *b"nkoo            ",
        digits: [
            '\u{7c0}', '\u{7c1}', '\u{7c2}', '\u{7c3}', '\u{7c4}',
            '\u{7c5}', '\u{7c6}', '\u{7c7}', '\u{7c8}', '\u{7c9}',
        ],
        symbols: None,
        rows: TableRange(82, 83),
    },
    DecimalSystem {
        name: *b"olck            ",
        digits: [
            '᱐', '᱑', '᱒', '᱓', '᱔', '᱕', '᱖', '᱗', '᱘', '᱙',
        ],
        symbols: None,
        rows: TableRange(83, 84),
    },
    DecimalSystem {
        name: *b"onao            ",
        digits: [
            '𞗱', '𞗲', '𞗳', '𞗴', '𞗵', '𞗶', '𞗷', '𞗸', '𞗹', '𞗺',
        ],
        symbols: None,
        rows: TableRange(0, 0),
    },
    DecimalSystem {
        name: *b"orya            ",
        digits: [
            '୦', '୧', '୨', '୩', '୪', '୫', '୬', '୭', '୮', '୯',
        ],
        symbols: None,
        rows: TableRange(84, 85),
    },
    DecimalSystem {
        name: *b"osma            ",
        digits: [
            '𐒠', '𐒡', '𐒢', '𐒣', '𐒤', '𐒥', '𐒦', '𐒧', '𐒨', '𐒩',
        ],
        symbols: None,
        rows: TableRange(85, 86),
    },
    DecimalSystem {
        name: *b"outlined        ",
        digits: [
            '𜳰', '𜳱', '𜳲', '𜳳', '𜳴', '𜳵', '𜳶', '𜳷', '𜳸', '𜳹',
        ],
        symbols: None,
        rows: TableRange(0, 0),
    },
    DecimalSystem {
        name: *b"rohg            ",
        digits: [
            '\u{10d30}', '\u{10d31}', '\u{10d32}', '\u{10d33}', '\u{10d34}',
            '\u{10d35}', '\u{10d36}', '\u{10d37}', '\u{10d38}', '\u{10d39}',
        ],
        symbols: None,
        rows: TableRange(86, 87),
    },
    DecimalSystem {
        name: *b"saur            ",
        digits: [
            '꣐', '꣑', '꣒', '꣓', '꣔', '꣕', '꣖', '꣗', '꣘', '꣙',
        ],
        symbols: None,
        rows: TableRange(87, 88),
    },
    DecimalSystem {
        name: *b"segment         ",
        digits: [
            '🯰', '🯱', '🯲', '🯳', '🯴', '🯵', '🯶', '🯷', '🯸', '🯹',
        ],
        symbols: None,
        rows: TableRange(0, 0),
    },
    DecimalSystem {
        name: *b"shrd            ",
        digits: [
            '𑇐', '𑇑', '𑇒', '𑇓', '𑇔', '𑇕', '𑇖', '𑇗', '𑇘', '𑇙',
        ],
        symbols: None,
        rows: TableRange(88, 89),
    },
    DecimalSystem {
        name: *b"sind            ",
        digits: [
            '𑋰', '𑋱', '𑋲', '𑋳', '𑋴', '𑋵', '𑋶', '𑋷', '𑋸', '𑋹',
        ],
        symbols: None,
        rows: TableRange(0, 0),
    },
    DecimalSystem {
        name: *b"sinh            ",
        digits: [
            '෦', '෧', '෨', '෩', '෪', '෫', '෬', '෭', '෮', '෯',
        ],
        symbols: None,
        rows: TableRange(0, 0),
    },
    DecimalSystem {
        name: *b"sora            ",
        digits: [
            '𑃰', '𑃱', '𑃲', '𑃳', '𑃴', '𑃵', '𑃶', '𑃷', '𑃸', '𑃹',
        ],
        symbols: None,
        rows: TableRange(89, 90),
    },
    DecimalSystem {
        name: *b"sund            ",
        digits: [
            '᮰', '᮱', '᮲', '᮳', '᮴', '᮵', '᮶', '᮷', '᮸', '᮹',
        ],
        symbols: None,
        rows: TableRange(90, 91),
    },
    DecimalSystem {
        name: *b"sunu            ",
        digits: [
            '𑯰', '𑯱', '𑯲', '𑯳', '𑯴', '𑯵', '𑯶', '𑯷', '𑯸', '𑯹',
        ],
        symbols: None,
        rows: TableRange(0, 0),
    },
    DecimalSystem {
        name: *b"takr            ",
        digits: [
            '𑛀', '𑛁', '𑛂', '𑛃', '𑛄', '𑛅', '𑛆', '𑛇', '𑛈', '𑛉',
        ],
        symbols: None,
        rows: TableRange(91, 92),
    },
    DecimalSystem {
        name: *b"talu            ",
        digits: [
            '᧐', '᧑', '᧒', '᧓', '᧔', '᧕', '᧖', '᧗', '᧘', '᧙',
        ],
        symbols: None,
        rows: TableRange(92, 93),
    },
    DecimalSystem {
        name: *b"tamldec         ",
        digits: [
            '௦', '௧', '௨', '௩', '௪', '௫', '௬', '௭', '௮', '௯',
        ],
        symbols: None,
        rows: TableRange(93, 94),
    },
    DecimalSystem {
        name: *b"telu            ",
        digits: [
            '౦', '౧', '౨', '౩', '౪', '౫', '౬', '౭', '౮', '౯',
        ],
        symbols: None,
        rows: TableRange(94, 96),
    },
    DecimalSystem {
        name: *b"thai            ",
        digits: [
            '๐', '๑', '๒', '๓', '๔', '๕', '๖', '๗', '๘', '๙',
        ],
        symbols: None,
        rows: TableRange(96, 97),
    },
    DecimalSystem {
        name: *b"tibt            ",
        digits: [
            '༠', '༡', '༢', '༣', '༤', '༥', '༦', '༧', '༨', '༩',
        ],
        symbols: None,
        rows: TableRange(97, 98),
    },
    DecimalSystem {
        name: *b"tirh            ",
        digits: [
            '𑓐', '𑓑', '𑓒', '𑓓', '𑓔', '𑓕', '𑓖', '𑓗', '𑓘', '𑓙',
        ],
        symbols: None,
        rows: TableRange(0, 0),
    },
    DecimalSystem {
        name: *b"tnsa            ",
        digits: [
            '𖫀', '𖫁', '𖫂', '𖫃', '𖫄', '𖫅', '𖫆', '𖫇', '𖫈', '𖫉',
        ],
        symbols: None,
        rows: TableRange(0, 0),
    },
    DecimalSystem {
        name: *b"tols            ",
        digits: [
            '𑷠', '𑷡', '𑷢', '𑷣', '𑷤', '𑷥', '𑷦', '𑷧', '𑷨', '𑷩',
        ],
        symbols: None,
        rows: TableRange(0, 0),
    },
    DecimalSystem {
        name: *b"vaii            ",
        digits: [
            '꘠', '꘡', '꘢', '꘣', '꘤', '꘥', '꘦', '꘧', '꘨', '꘩',
        ],
        symbols: None,
        rows: TableRange(98, 99),
    },
    DecimalSystem {
        name: *b"wara            ",
        digits: [
            '𑣠', '𑣡', '𑣢', '𑣣', '𑣤', '𑣥', '𑣦', '𑣧', '𑣨', '𑣩',
        ],
        symbols: None,
        rows: TableRange(0, 0),
    },
    DecimalSystem {
        name: *b"wcho            ",
        digits: [
            '𞋰', '𞋱', '𞋲', '𞋳', '𞋴', '𞋵', '𞋶', '𞋷', '𞋸', '𞋹',
        ],
        symbols: None,
        rows: TableRange(0, 0),
    },
];

/// The locales, each with its default numbering system.
#[rattlefmt::skip]
pub static LOCALES: [LocaleSymbols; 363] = [
    LocaleSymbols { tag: *b"af              ", system: 31, symbols: AF, sizes: THREES },
    LocaleSymbols { tag: *b"agq             ", system: 31, symbols: AF, sizes: THREES },
    LocaleSymbols { tag: *b"ak              ", system: 31, symbols: AK, sizes: THREES },
    LocaleSymbols { tag: *b"am              ", system: 31, symbols: AK, sizes: THREES },
    LocaleSymbols { tag: *b"ar              ", system: 31, symbols: AR, sizes: THREES },
    LocaleSymbols { tag: *b"ar-bh           ", system: 2, symbols: AR, sizes: THREES },
    LocaleSymbols { tag: *b"ar-dj           ", system: 2, symbols: AR, sizes: THREES },
    LocaleSymbols { tag: *b"ar-dz           ", system: 31, symbols: AR_DZ, sizes: THREES },
    LocaleSymbols { tag: *b"ar-eg           ", system: 2, symbols: AR, sizes: THREES },
    LocaleSymbols { tag: *b"ar-er           ", system: 2, symbols: AR, sizes: THREES },
    LocaleSymbols { tag: *b"ar-il           ", system: 2, symbols: AR, sizes: THREES },
    LocaleSymbols { tag: *b"ar-iq           ", system: 2, symbols: AR, sizes: THREES },
    LocaleSymbols { tag: *b"ar-jo           ", system: 2, symbols: AR, sizes: THREES },
    LocaleSymbols { tag: *b"ar-km           ", system: 2, symbols: AR, sizes: THREES },
    LocaleSymbols { tag: *b"ar-kw           ", system: 2, symbols: AR, sizes: THREES },
    LocaleSymbols { tag: *b"ar-lb           ", system: 2, symbols: AR_DZ, sizes: THREES },
    LocaleSymbols { tag: *b"ar-ly           ", system: 31, symbols: AR_DZ, sizes: THREES },
    LocaleSymbols { tag: *b"ar-ma           ", system: 31, symbols: AR_DZ, sizes: THREES },
    LocaleSymbols { tag: *b"ar-mr           ", system: 2, symbols: AR_DZ, sizes: THREES },
    LocaleSymbols { tag: *b"ar-om           ", system: 2, symbols: AR, sizes: THREES },
    LocaleSymbols { tag: *b"ar-ps           ", system: 2, symbols: AR, sizes: THREES },
    LocaleSymbols { tag: *b"ar-qa           ", system: 2, symbols: AR, sizes: THREES },
    LocaleSymbols { tag: *b"ar-sa           ", system: 2, symbols: AR, sizes: THREES },
    LocaleSymbols { tag: *b"ar-sd           ", system: 2, symbols: AR, sizes: THREES },
    LocaleSymbols { tag: *b"ar-so           ", system: 2, symbols: AR, sizes: THREES },
    LocaleSymbols { tag: *b"ar-ss           ", system: 2, symbols: AR, sizes: THREES },
    LocaleSymbols { tag: *b"ar-sy           ", system: 2, symbols: AR, sizes: THREES },
    LocaleSymbols { tag: *b"ar-td           ", system: 2, symbols: AR, sizes: THREES },
    LocaleSymbols { tag: *b"ar-tn           ", system: 31, symbols: AR_DZ, sizes: THREES },
    LocaleSymbols { tag: *b"ar-ye           ", system: 2, symbols: AR, sizes: THREES },
    LocaleSymbols { tag: *b"ars             ", system: 2, symbols: AR, sizes: THREES },
    LocaleSymbols { tag: *b"as              ", system: 5, symbols: AK, sizes: THREE_AND_TWOS },
    LocaleSymbols { tag: *b"asa             ", system: 31, symbols: AK, sizes: THREES },
    LocaleSymbols { tag: *b"ast             ", system: 31, symbols: AST, sizes: THREES },
    LocaleSymbols { tag: *b"az              ", system: 31, symbols: AST, sizes: THREES },
    LocaleSymbols { tag: *b"ba              ", system: 31, symbols: BA, sizes: THREES },
    LocaleSymbols { tag: *b"bas             ", system: 31, symbols: AF, sizes: THREES },
    LocaleSymbols { tag: *b"be              ", system: 31, symbols: AF, sizes: THREES_MIN_2 },
    LocaleSymbols { tag: *b"bem             ", system: 31, symbols: AK, sizes: THREES },
    LocaleSymbols { tag: *b"bez             ", system: 31, symbols: AK, sizes: THREES },
    LocaleSymbols { tag: *b"bg              ", system: 31, symbols: AF, sizes: THREES_MIN_2 },
    LocaleSymbols { tag: *b"bgc             ", system: 10, symbols: AK, sizes: THREES },
    LocaleSymbols { tag: *b"bho             ", system: 10, symbols: AK, sizes: THREES },
    LocaleSymbols { tag: *b"blo             ", system: 31, symbols: AF, sizes: THREES },
    LocaleSymbols { tag: *b"bm              ", system: 31, symbols: AK, sizes: THREES },
    LocaleSymbols { tag: *b"bn              ", system: 5, symbols: AK, sizes: THREE_AND_TWOS },
    LocaleSymbols { tag: *b"bo              ", system: 31, symbols: AK, sizes: THREES },
    LocaleSymbols { tag: *b"br              ", system: 31, symbols: AF, sizes: THREES },
    LocaleSymbols { tag: *b"brx             ", system: 31, symbols: AK, sizes: THREE_AND_TWOS },
    LocaleSymbols { tag: *b"bs              ", system: 31, symbols: AST, sizes: THREES },
    LocaleSymbols { tag: *b"bua             ", system: 31, symbols: AF, sizes: THREES },
    LocaleSymbols { tag: *b"c               ", system: 31, symbols: AK, sizes: THREES },
    LocaleSymbols { tag: *b"ca              ", system: 31, symbols: AST, sizes: THREES },
    LocaleSymbols { tag: *b"ccp             ", system: 8, symbols: AK, sizes: THREE_AND_TWOS },
    LocaleSymbols { tag: *b"ce              ", system: 31, symbols: AK, sizes: THREES },
    LocaleSymbols { tag: *b"ceb             ", system: 31, symbols: AK, sizes: THREES },
    LocaleSymbols { tag: *b"cgg             ", system: 31, symbols: AK, sizes: THREES },
    LocaleSymbols { tag: *b"chr             ", system: 31, symbols: AK, sizes: THREES },
    LocaleSymbols { tag: *b"ckb             ", system: 2, symbols: CKB, sizes: THREES },
    LocaleSymbols { tag: *b"cs              ", system: 31, symbols: AF, sizes: THREES },
    LocaleSymbols { tag: *b"csw             ", system: 31, symbols: AK, sizes: THREES },
    LocaleSymbols { tag: *b"cv              ", system: 31, symbols: AF, sizes: THREES },
    LocaleSymbols { tag: *b"cy              ", system: 31, symbols: AK, sizes: THREES },
    LocaleSymbols { tag: *b"da              ", system: 31, symbols: AST, sizes: THREES },
    LocaleSymbols { tag: *b"dav             ", system: 31, symbols: AK, sizes: THREES },
    LocaleSymbols { tag: *b"de              ", system: 31, symbols: AST, sizes: THREES },
    LocaleSymbols { tag: *b"de-at           ", system: 31, symbols: AF, sizes: THREES },
    LocaleSymbols { tag: *b"de-ch           ", system: 31, symbols: DE_CH, sizes: THREES },
    LocaleSymbols { tag: *b"de-li           ", system: 31, symbols: DE_CH, sizes: THREES },
    LocaleSymbols { tag: *b"dje             ", system: 31, symbols: BA, sizes: THREES },
    LocaleSymbols { tag: *b"doi             ", system: 31, symbols: AK, sizes: THREES },
    LocaleSymbols { tag: *b"dsb             ", system: 31, symbols: AST, sizes: THREES },
    LocaleSymbols { tag: *b"dua             ", system: 31, symbols: AF, sizes: THREES },
    LocaleSymbols { tag: *b"dyo             ", system: 31, symbols: AF, sizes: THREES },
    LocaleSymbols { tag: *b"dz              ", system: 71, symbols: AK, sizes: THREE_AND_TWOS },
    LocaleSymbols { tag: *b"ebu             ", system: 31, symbols: AK, sizes: THREES },
    LocaleSymbols { tag: *b"ee              ", system: 31, symbols: AK, sizes: THREES_MIN_3 },
    LocaleSymbols { tag: *b"el              ", system: 31, symbols: AST, sizes: THREES },
    LocaleSymbols { tag: *b"en              ", system: 31, symbols: AK, sizes: THREES },
    LocaleSymbols { tag: *b"en-at           ", system: 31, symbols: AST, sizes: THREES },
    LocaleSymbols { tag: *b"en-be           ", system: 31, symbols: AST, sizes: THREES },
    LocaleSymbols { tag: *b"en-ch           ", system: 31, symbols: DE_CH, sizes: THREES },
    LocaleSymbols { tag: *b"en-cz           ", system: 31, symbols: AF, sizes: THREES },
    LocaleSymbols { tag: *b"en-de           ", system: 31, symbols: AST, sizes: THREES },
    LocaleSymbols { tag: *b"en-dk           ", system: 31, symbols: AST, sizes: THREES },
    LocaleSymbols { tag: *b"en-ee           ", system: 31, symbols: AF, sizes: THREES },
    LocaleSymbols { tag: *b"en-es           ", system: 31, symbols: AST, sizes: THREES },
    LocaleSymbols { tag: *b"en-fi           ", system: 31, symbols: AF, sizes: THREES },
    LocaleSymbols { tag: *b"en-fr           ", system: 31, symbols: EN_FR, sizes: THREES },
    LocaleSymbols { tag: *b"en-ge           ", system: 31, symbols: EN_FR, sizes: THREES },
    LocaleSymbols { tag: *b"en-hu           ", system: 31, symbols: AF, sizes: THREES },
    LocaleSymbols { tag: *b"en-id           ", system: 31, symbols: AST, sizes: THREES },
    LocaleSymbols { tag: *b"en-in           ", system: 31, symbols: AK, sizes: THREE_AND_TWOS },
    LocaleSymbols { tag: *b"en-it           ", system: 31, symbols: AST, sizes: THREES },
    LocaleSymbols { tag: *b"en-lt           ", system: 31, symbols: AF, sizes: THREES },
    LocaleSymbols { tag: *b"en-lv           ", system: 31, symbols: AF, sizes: THREES },
    LocaleSymbols { tag: *b"en-nl           ", system: 31, symbols: AST, sizes: THREES },
    LocaleSymbols { tag: *b"en-no           ", system: 31, symbols: AF, sizes: THREES },
    LocaleSymbols { tag: *b"en-pl           ", system: 31, symbols: AST, sizes: THREES },
    LocaleSymbols { tag: *b"en-pt           ", system: 31, symbols: AF, sizes: THREES },
    LocaleSymbols { tag: *b"en-ro           ", system: 31, symbols: AST, sizes: THREES },
    LocaleSymbols { tag: *b"en-se           ", system: 31, symbols: AF, sizes: THREES },
    LocaleSymbols { tag: *b"en-si           ", system: 31, symbols: AST, sizes: THREES },
    LocaleSymbols { tag: *b"en-sk           ", system: 31, symbols: AF, sizes: THREES },
    LocaleSymbols { tag: *b"en-ua           ", system: 31, symbols: AF, sizes: THREES },
    LocaleSymbols { tag: *b"en-us-posix     ", system: 31, symbols: AK, sizes: NO_GROUPS },
    LocaleSymbols { tag: *b"en-us-u-va-posix", system: 31, symbols: AK, sizes: NO_GROUPS },
    LocaleSymbols { tag: *b"en-za           ", system: 31, symbols: AF, sizes: THREES },
    LocaleSymbols { tag: *b"eo              ", system: 31, symbols: EN_FR, sizes: THREES },
    LocaleSymbols { tag: *b"es              ", system: 31, symbols: AST, sizes: THREES_MIN_2 },
    LocaleSymbols { tag: *b"es-419          ", system: 31, symbols: AK, sizes: THREES },
    LocaleSymbols { tag: *b"es-ar           ", system: 31, symbols: AST, sizes: THREES },
    LocaleSymbols { tag: *b"es-bo           ", system: 31, symbols: AST, sizes: THREES },
    LocaleSymbols { tag: *b"es-br           ", system: 31, symbols: AK, sizes: THREES },
    LocaleSymbols { tag: *b"es-bz           ", system: 31, symbols: AK, sizes: THREES },
    LocaleSymbols { tag: *b"es-cl           ", system: 31, symbols: AST, sizes: THREES },
    LocaleSymbols { tag: *b"es-co           ", system: 31, symbols: AST, sizes: THREES },
    LocaleSymbols { tag: *b"es-cr           ", system: 31, symbols: AF, sizes: THREES },
    LocaleSymbols { tag: *b"es-cu           ", system: 31, symbols: AK, sizes: THREES },
    LocaleSymbols { tag: *b"es-do           ", system: 31, symbols: AK, sizes: THREES },
    LocaleSymbols { tag: *b"es-ec           ", system: 31, symbols: AST, sizes: THREES },
    LocaleSymbols { tag: *b"es-gt           ", system: 31, symbols: AK, sizes: THREES },
    LocaleSymbols { tag: *b"es-hn           ", system: 31, symbols: AK, sizes: THREES },
    LocaleSymbols { tag: *b"es-mx           ", system: 31, symbols: AK, sizes: THREES },
    LocaleSymbols { tag: *b"es-ni           ", system: 31, symbols: AK, sizes: THREES },
    LocaleSymbols { tag: *b"es-pa           ", system: 31, symbols: AK, sizes: THREES },
    LocaleSymbols { tag: *b"es-pe           ", system: 31, symbols: AK, sizes: THREES },
    LocaleSymbols { tag: *b"es-pr           ", system: 31, symbols: AK, sizes: THREES },
    LocaleSymbols { tag: *b"es-py           ", system: 31, symbols: AST, sizes: THREES },
    LocaleSymbols { tag: *b"es-sv           ", system: 31, symbols: AK, sizes: THREES },
    LocaleSymbols { tag: *b"es-us           ", system: 31, symbols: AK, sizes: THREES },
    LocaleSymbols { tag: *b"es-uy           ", system: 31, symbols: AST, sizes: THREES },
    LocaleSymbols { tag: *b"es-ve           ", system: 31, symbols: AST, sizes: THREES },
    LocaleSymbols { tag: *b"et              ", system: 31, symbols: ET, sizes: THREES_MIN_2 },
    LocaleSymbols { tag: *b"eu              ", system: 31, symbols: EU, sizes: THREES },
    LocaleSymbols { tag: *b"ewo             ", system: 31, symbols: AF, sizes: THREES },
    LocaleSymbols { tag: *b"fa              ", system: 3, symbols: FA, sizes: THREES },
    LocaleSymbols { tag: *b"ff              ", system: 31, symbols: AF, sizes: THREES },
    LocaleSymbols { tag: *b"ff-adlm         ", system: 0, symbols: FF_ADLM, sizes: THREES },
    LocaleSymbols { tag: *b"fi              ", system: 31, symbols: ET, sizes: THREES },
    LocaleSymbols { tag: *b"fil             ", system: 31, symbols: AK, sizes: THREES },
    LocaleSymbols { tag: *b"fo              ", system: 31, symbols: EU, sizes: THREES },
    LocaleSymbols { tag: *b"fr              ", system: 31, symbols: EN_FR, sizes: THREES },
    LocaleSymbols { tag: *b"fr-ca           ", system: 31, symbols: AF, sizes: THREES },
    LocaleSymbols { tag: *b"fr-lu           ", system: 31, symbols: AST, sizes: THREES },
    LocaleSymbols { tag: *b"fr-ma           ", system: 31, symbols: AST, sizes: THREES },
    LocaleSymbols { tag: *b"fur             ", system: 31, symbols: AST, sizes: THREES },
    LocaleSymbols { tag: *b"fy              ", system: 31, symbols: AST, sizes: THREES },
    LocaleSymbols { tag: *b"ga              ", system: 31, symbols: AK, sizes: THREES },
    LocaleSymbols { tag: *b"gaa             ", system: 31, symbols: AK, sizes: THREES },
    LocaleSymbols { tag: *b"gd              ", system: 31, symbols: AK, sizes: THREES },
    LocaleSymbols { tag: *b"gl              ", system: 31, symbols: AST, sizes: THREES },
    LocaleSymbols { tag: *b"gsw             ", system: 31, symbols: GSW, sizes: THREES },
    LocaleSymbols { tag: *b"gu              ", system: 31, symbols: AK, sizes: THREE_AND_TWOS },
    LocaleSymbols { tag: *b"guz             ", system: 31, symbols: AK, sizes: THREES },
    LocaleSymbols { tag: *b"gv              ", system: 31, symbols: AK, sizes: THREES },
    LocaleSymbols { tag: *b"ha              ", system: 31, symbols: AK, sizes: THREES },
    LocaleSymbols { tag: *b"haw             ", system: 31, symbols: AK, sizes: THREES },
    LocaleSymbols { tag: *b"he              ", system: 31, symbols: AR, sizes: THREES },
    LocaleSymbols { tag: *b"hi              ", system: 31, symbols: AK, sizes: THREE_AND_TWOS },
    LocaleSymbols { tag: *b"hr              ", system: 31, symbols: EU, sizes: THREES },
    LocaleSymbols { tag: *b"hsb             ", system: 31, symbols: AST, sizes: THREES },
    LocaleSymbols { tag: *b"hu              ", system: 31, symbols: AF, sizes: THREES_MIN_2 },
    LocaleSymbols { tag: *b"hy              ", system: 31, symbols: AF, sizes: THREES_MIN_2 },
    LocaleSymbols { tag: *b"ia              ", system: 31, symbols: AST, sizes: THREES_MIN_2 },
    LocaleSymbols { tag: *b"id              ", system: 31, symbols: AST, sizes: THREES },
    LocaleSymbols { tag: *b"ie              ", system: 31, symbols: AF, sizes: THREES_MIN_2 },
    LocaleSymbols { tag: *b"ig              ", system: 31, symbols: AK, sizes: THREES },
    LocaleSymbols { tag: *b"ii              ", system: 31, symbols: AK, sizes: THREES },
    LocaleSymbols { tag: *b"in              ", system: 31, symbols: AST, sizes: THREES },
    LocaleSymbols { tag: *b"is              ", system: 31, symbols: AST, sizes: THREES },
    LocaleSymbols { tag: *b"it              ", system: 31, symbols: AST, sizes: THREES_MIN_2 },
    LocaleSymbols { tag: *b"it-ch           ", system: 31, symbols: DE_CH, sizes: THREES_MIN_2 },
    LocaleSymbols { tag: *b"iw              ", system: 31, symbols: AR, sizes: THREES },
    LocaleSymbols { tag: *b"ja              ", system: 31, symbols: AK, sizes: THREES },
    LocaleSymbols { tag: *b"jgo             ", system: 31, symbols: AST, sizes: THREES },
    LocaleSymbols { tag: *b"jmc             ", system: 31, symbols: AK, sizes: THREES },
    LocaleSymbols { tag: *b"jv              ", system: 31, symbols: AST, sizes: THREES },
    LocaleSymbols { tag: *b"ka              ", system: 31, symbols: AF, sizes: THREES_MIN_2 },
    LocaleSymbols { tag: *b"kab             ", system: 31, symbols: AF, sizes: THREES },
    LocaleSymbols { tag: *b"kam             ", system: 31, symbols: AK, sizes: THREES },
    LocaleSymbols { tag: *b"kde             ", system: 31, symbols: AK, sizes: THREES },
    LocaleSymbols { tag: *b"kea             ", system: 31, symbols: AF, sizes: THREES },
    LocaleSymbols { tag: *b"kgp             ", system: 31, symbols: AST, sizes: THREES },
    LocaleSymbols { tag: *b"khq             ", system: 31, symbols: BA, sizes: THREES },
    LocaleSymbols { tag: *b"ki              ", system: 31, symbols: AK, sizes: THREES },
    LocaleSymbols { tag: *b"kk              ", system: 31, symbols: AF, sizes: THREES },
    LocaleSymbols { tag: *b"kk-arab         ", system: 31, symbols: AK, sizes: THREES },
    LocaleSymbols { tag: *b"kk-cn           ", system: 31, symbols: AK, sizes: THREES },
    LocaleSymbols { tag: *b"kkj             ", system: 31, symbols: AST, sizes: THREES },
    LocaleSymbols { tag: *b"kl              ", system: 31, symbols: AST, sizes: THREES },
    LocaleSymbols { tag: *b"kln             ", system: 31, symbols: AK, sizes: THREES },
    LocaleSymbols { tag: *b"km              ", system: 31, symbols: AK, sizes: THREES },
    LocaleSymbols { tag: *b"kn              ", system: 31, symbols: AK, sizes: THREES },
    LocaleSymbols { tag: *b"ko              ", system: 31, symbols: AK, sizes: THREES },
    LocaleSymbols { tag: *b"kok             ", system: 31, symbols: AK, sizes: THREE_AND_TWOS },
    LocaleSymbols { tag: *b"ks              ", system: 3, symbols: KS, sizes: THREES },
    LocaleSymbols { tag: *b"ks-deva         ", system: 31, symbols: AK, sizes: THREES },
    LocaleSymbols { tag: *b"ksb             ", system: 31, symbols: AK, sizes: THREES },
    LocaleSymbols { tag: *b"ksf             ", system: 31, symbols: AF, sizes: THREES },
    LocaleSymbols { tag: *b"ksh             ", system: 31, symbols: ET, sizes: THREES },
    LocaleSymbols { tag: *b"ku              ", system: 31, symbols: AST, sizes: THREES },
    LocaleSymbols { tag: *b"kw              ", system: 31, symbols: AK, sizes: THREES },
    LocaleSymbols { tag: *b"kxv             ", system: 31, symbols: AK, sizes: THREE_AND_TWOS },
    LocaleSymbols { tag: *b"ky              ", system: 31, symbols: AF, sizes: THREES },
    LocaleSymbols { tag: *b"lb              ", system: 31, symbols: AST, sizes: THREES },
    LocaleSymbols { tag: *b"lg              ", system: 31, symbols: AK, sizes: THREES },
    LocaleSymbols { tag: *b"lij             ", system: 31, symbols: AST, sizes: THREES },
    LocaleSymbols { tag: *b"lmo             ", system: 31, symbols: LMO, sizes: THREES },
    LocaleSymbols { tag: *b"ln              ", system: 31, symbols: AST, sizes: THREES },
    LocaleSymbols { tag: *b"lo              ", system: 31, symbols: AST, sizes: THREES },
    LocaleSymbols { tag: *b"lrc             ", system: 3, symbols: AK, sizes: THREES },
    LocaleSymbols { tag: *b"lt              ", system: 31, symbols: ET, sizes: THREES },
    LocaleSymbols { tag: *b"lu              ", system: 31, symbols: AST, sizes: THREES },
    LocaleSymbols { tag: *b"luo             ", system: 31, symbols: AK, sizes: THREES },
    LocaleSymbols { tag: *b"luy             ", system: 31, symbols: AK, sizes: THREES },
    LocaleSymbols { tag: *b"lv              ", system: 31, symbols: AF, sizes: THREES_MIN_2 },
    LocaleSymbols { tag: *b"mai             ", system: 31, symbols: AK, sizes: THREES },
    LocaleSymbols { tag: *b"mas             ", system: 31, symbols: AK, sizes: THREES },
    LocaleSymbols { tag: *b"mer             ", system: 31, symbols: AK, sizes: THREES },
    LocaleSymbols { tag: *b"mfe             ", system: 31, symbols: BA, sizes: THREES },
    LocaleSymbols { tag: *b"mg              ", system: 31, symbols: AK, sizes: THREES },
    LocaleSymbols { tag: *b"mgh             ", system: 31, symbols: AST, sizes: THREES },
    LocaleSymbols { tag: *b"mi              ", system: 31, symbols: AK, sizes: THREES },
    LocaleSymbols { tag: *b"mk              ", system: 31, symbols: AST, sizes: THREES },
    LocaleSymbols { tag: *b"ml              ", system: 31, symbols: AK, sizes: THREE_AND_TWOS },
    LocaleSymbols { tag: *b"mn              ", system: 31, symbols: AK, sizes: THREES },
    LocaleSymbols { tag: *b"mni             ", system: 5, symbols: AK, sizes: THREES },
    LocaleSymbols { tag: *b"mo              ", system: 31, symbols: AST, sizes: THREES },
    LocaleSymbols { tag: *b"mr              ", system: 10, symbols: AK, sizes: THREE_AND_TWOS },
    LocaleSymbols { tag: *b"ms              ", system: 31, symbols: AK, sizes: THREES },
    LocaleSymbols { tag: *b"ms-bn           ", system: 31, symbols: AST, sizes: THREES },
    LocaleSymbols { tag: *b"ms-id           ", system: 31, symbols: AST, sizes: THREES },
    LocaleSymbols { tag: *b"mt              ", system: 31, symbols: AK, sizes: THREES },
    LocaleSymbols { tag: *b"mua             ", system: 31, symbols: AST, sizes: THREES },
    LocaleSymbols { tag: *b"my              ", system: 44, symbols: AK, sizes: THREES },
    LocaleSymbols { tag: *b"mzn             ", system: 3, symbols: AK, sizes: THREES },
    LocaleSymbols { tag: *b"naq             ", system: 31, symbols: AK, sizes: THREES },
    LocaleSymbols { tag: *b"nb              ", system: 31, symbols: ET, sizes: THREES },
    LocaleSymbols { tag: *b"nd              ", system: 31, symbols: AK, sizes: THREES },
    LocaleSymbols { tag: *b"nds             ", system: 31, symbols: AST, sizes: THREES },
    LocaleSymbols { tag: *b"ne              ", system: 10, symbols: AK, sizes: THREE_AND_TWOS },
    LocaleSymbols { tag: *b"nl              ", system: 31, symbols: AST, sizes: THREES },
    LocaleSymbols { tag: *b"nmg             ", system: 31, symbols: AF, sizes: THREES },
    LocaleSymbols { tag: *b"nn              ", system: 31, symbols: ET, sizes: THREES },
    LocaleSymbols { tag: *b"nnh             ", system: 31, symbols: AST, sizes: THREES },
    LocaleSymbols { tag: *b"no              ", system: 31, symbols: ET, sizes: THREES },
    LocaleSymbols { tag: *b"nqo             ", system: 51, symbols: KS, sizes: THREES },
    LocaleSymbols { tag: *b"nso             ", system: 31, symbols: AK, sizes: THREES },
    LocaleSymbols { tag: *b"nus             ", system: 31, symbols: AK, sizes: THREES },
    LocaleSymbols { tag: *b"nyn             ", system: 31, symbols: AK, sizes: THREES },
    LocaleSymbols { tag: *b"oc              ", system: 31, symbols: AF, sizes: THREES },
    LocaleSymbols { tag: *b"om              ", system: 31, symbols: AK, sizes: THREES },
    LocaleSymbols { tag: *b"or              ", system: 31, symbols: AK, sizes: THREE_AND_TWOS },
    LocaleSymbols { tag: *b"os              ", system: 31, symbols: AF, sizes: THREES },
    LocaleSymbols { tag: *b"pa              ", system: 31, symbols: AK, sizes: THREE_AND_TWOS },
    LocaleSymbols { tag: *b"pa-arab         ", system: 3, symbols: AR, sizes: THREES },
    LocaleSymbols { tag: *b"pa-pk           ", system: 3, symbols: AR, sizes: THREES },
    LocaleSymbols { tag: *b"pcm             ", system: 31, symbols: AK, sizes: THREES },
    LocaleSymbols { tag: *b"pl              ", system: 31, symbols: AF, sizes: THREES_MIN_2 },
    LocaleSymbols { tag: *b"pms             ", system: 31, symbols: AST, sizes: THREES },
    LocaleSymbols { tag: *b"posix           ", system: 31, symbols: AK, sizes: THREES },
    LocaleSymbols { tag: *b"prg             ", system: 31, symbols: AF, sizes: THREES },
    LocaleSymbols { tag: *b"ps              ", system: 3, symbols: PS, sizes: THREES },
    LocaleSymbols { tag: *b"pt              ", system: 31, symbols: AST, sizes: THREES },
    LocaleSymbols { tag: *b"pt-ao           ", system: 31, symbols: AF, sizes: THREES },
    LocaleSymbols { tag: *b"pt-ch           ", system: 31, symbols: AF, sizes: THREES_MIN_2 },
    LocaleSymbols { tag: *b"pt-cv           ", system: 31, symbols: AF, sizes: THREES_MIN_2 },
    LocaleSymbols { tag: *b"pt-gq           ", system: 31, symbols: AF, sizes: THREES_MIN_2 },
    LocaleSymbols { tag: *b"pt-gw           ", system: 31, symbols: AF, sizes: THREES_MIN_2 },
    LocaleSymbols { tag: *b"pt-lu           ", system: 31, symbols: AF, sizes: THREES_MIN_2 },
    LocaleSymbols { tag: *b"pt-mo           ", system: 31, symbols: AF, sizes: THREES_MIN_2 },
    LocaleSymbols { tag: *b"pt-mz           ", system: 31, symbols: AF, sizes: THREES_MIN_2 },
    LocaleSymbols { tag: *b"pt-pt           ", system: 31, symbols: AF, sizes: THREES_MIN_2 },
    LocaleSymbols { tag: *b"pt-st           ", system: 31, symbols: AF, sizes: THREES_MIN_2 },
    LocaleSymbols { tag: *b"pt-tl           ", system: 31, symbols: AF, sizes: THREES_MIN_2 },
    LocaleSymbols { tag: *b"qu              ", system: 31, symbols: AK, sizes: THREES },
    LocaleSymbols { tag: *b"qu-bo           ", system: 31, symbols: AST, sizes: THREES },
    LocaleSymbols { tag: *b"raj             ", system: 10, symbols: AK, sizes: THREES },
    LocaleSymbols { tag: *b"rm              ", system: 31, symbols: EN_FR, sizes: THREES },
    LocaleSymbols { tag: *b"rn              ", system: 31, symbols: AST, sizes: THREES },
    LocaleSymbols { tag: *b"ro              ", system: 31, symbols: AST, sizes: THREES },
    LocaleSymbols { tag: *b"rof             ", system: 31, symbols: AK, sizes: THREES },
    LocaleSymbols { tag: *b"ru              ", system: 31, symbols: AF, sizes: THREES },
    LocaleSymbols { tag: *b"ru-ua           ", system: 31, symbols: AF, sizes: THREES_MIN_2 },
    LocaleSymbols { tag: *b"rw              ", system: 31, symbols: AST, sizes: THREES },
    LocaleSymbols { tag: *b"rwk             ", system: 31, symbols: AK, sizes: THREES },
    LocaleSymbols { tag: *b"sa              ", system: 10, symbols: AK, sizes: THREE_AND_TWOS },
    LocaleSymbols { tag: *b"sah             ", system: 31, symbols: AF, sizes: THREES },
    LocaleSymbols { tag: *b"saq             ", system: 31, symbols: AK, sizes: THREES },
    LocaleSymbols { tag: *b"sat             ", system: 52, symbols: AK, sizes: THREES },
    LocaleSymbols { tag: *b"sbp             ", system: 31, symbols: AK, sizes: THREES },
    LocaleSymbols { tag: *b"sc              ", system: 31, symbols: AST, sizes: THREES },
    LocaleSymbols { tag: *b"scn             ", system: 31, symbols: AST, sizes: THREES },
    LocaleSymbols { tag: *b"sd              ", system: 2, symbols: AK, sizes: THREES },
    LocaleSymbols { tag: *b"sd-deva         ", system: 31, symbols: AK, sizes: THREES },
    LocaleSymbols { tag: *b"sd-in           ", system: 31, symbols: AK, sizes: THREES },
    LocaleSymbols { tag: *b"se              ", system: 31, symbols: ET, sizes: THREES },
    LocaleSymbols { tag: *b"seh             ", system: 31, symbols: AST, sizes: THREES },
    LocaleSymbols { tag: *b"ses             ", system: 31, symbols: BA, sizes: THREES },
    LocaleSymbols { tag: *b"sg              ", system: 31, symbols: AST, sizes: THREES },
    LocaleSymbols { tag: *b"sh              ", system: 31, symbols: AST, sizes: THREES },
    LocaleSymbols { tag: *b"shi             ", system: 31, symbols: AF, sizes: THREES },
    LocaleSymbols { tag: *b"shn             ", system: 31, symbols: AK, sizes: THREES },
    LocaleSymbols { tag: *b"si              ", system: 31, symbols: AK, sizes: THREES },
    LocaleSymbols { tag: *b"sk              ", system: 31, symbols: AF, sizes: THREES },
    LocaleSymbols { tag: *b"sl              ", system: 31, symbols: EU, sizes: THREES_MIN_2 },
    LocaleSymbols { tag: *b"smn             ", system: 31, symbols: AF, sizes: THREES },
    LocaleSymbols { tag: *b"sn              ", system: 31, symbols: AK, sizes: THREES },
    LocaleSymbols { tag: *b"so              ", system: 31, symbols: AK, sizes: THREES },
    LocaleSymbols { tag: *b"sq              ", system: 31, symbols: AF, sizes: THREES_MIN_2 },
    LocaleSymbols { tag: *b"sr              ", system: 31, symbols: AST, sizes: THREES },
    LocaleSymbols { tag: *b"st              ", system: 31, symbols: AK, sizes: THREES },
    LocaleSymbols { tag: *b"su              ", system: 31, symbols: AST, sizes: THREES },
    LocaleSymbols { tag: *b"sv              ", system: 31, symbols: ET, sizes: THREES },
    LocaleSymbols { tag: *b"sw              ", system: 31, symbols: AK, sizes: THREES },
    LocaleSymbols { tag: *b"sw-cd           ", system: 31, symbols: AST, sizes: THREES },
    LocaleSymbols { tag: *b"syr             ", system: 31, symbols: AK, sizes: THREES },
    LocaleSymbols { tag: *b"szl             ", system: 31, symbols: AF, sizes: THREES },
    LocaleSymbols { tag: *b"ta              ", system: 31, symbols: AK, sizes: THREE_AND_TWOS },
    LocaleSymbols { tag: *b"ta-my           ", system: 31, symbols: AK, sizes: THREES },
    LocaleSymbols { tag: *b"ta-sg           ", system: 31, symbols: AK, sizes: THREES },
    LocaleSymbols { tag: *b"te              ", system: 31, symbols: AK, sizes: THREE_AND_TWOS },
    LocaleSymbols { tag: *b"teo             ", system: 31, symbols: AK, sizes: THREES },
    LocaleSymbols { tag: *b"tg              ", system: 31, symbols: AF, sizes: THREES },
    LocaleSymbols { tag: *b"th              ", system: 31, symbols: AK, sizes: THREES },
    LocaleSymbols { tag: *b"ti              ", system: 31, symbols: AK, sizes: THREES },
    LocaleSymbols { tag: *b"tk              ", system: 31, symbols: AF, sizes: THREES },
    LocaleSymbols { tag: *b"tl              ", system: 31, symbols: AK, sizes: THREES },
    LocaleSymbols { tag: *b"tn              ", system: 31, symbols: DE_CH, sizes: THREES },
    LocaleSymbols { tag: *b"to              ", system: 31, symbols: AK, sizes: THREES },
    LocaleSymbols { tag: *b"tok             ", system: 31, symbols: AF, sizes: TWOS },
    LocaleSymbols { tag: *b"tr              ", system: 31, symbols: AST, sizes: THREES },
    LocaleSymbols { tag: *b"tt              ", system: 31, symbols: AF, sizes: THREES },
    LocaleSymbols { tag: *b"twq             ", system: 31, symbols: BA, sizes: THREES },
    LocaleSymbols { tag: *b"tyv             ", system: 31, symbols: BA, sizes: THREES },
    LocaleSymbols { tag: *b"tzm             ", system: 31, symbols: AF, sizes: THREES },
    LocaleSymbols { tag: *b"ug              ", system: 31, symbols: AK, sizes: THREES },
    LocaleSymbols { tag: *b"uk              ", system: 31, symbols: AF, sizes: THREES },
    LocaleSymbols { tag: *b"und             ", system: 31, symbols: AK, sizes: THREES },
    LocaleSymbols { tag: *b"ur              ", system: 31, symbols: AR, sizes: THREES },
    LocaleSymbols { tag: *b"ur-in           ", system: 3, symbols: AR, sizes: THREES },
    LocaleSymbols { tag: *b"uz              ", system: 31, symbols: AF, sizes: THREES },
    LocaleSymbols { tag: *b"uz-af           ", system: 3, symbols: PS, sizes: THREES },
    LocaleSymbols { tag: *b"uz-arab         ", system: 3, symbols: PS, sizes: THREES },
    LocaleSymbols { tag: *b"vai             ", system: 31, symbols: AK, sizes: THREES },
    LocaleSymbols { tag: *b"vec             ", system: 31, symbols: EN_FR, sizes: THREES },
    LocaleSymbols { tag: *b"vi              ", system: 31, symbols: AST, sizes: THREES },
    LocaleSymbols { tag: *b"vmw             ", system: 31, symbols: AST, sizes: THREES },
    LocaleSymbols { tag: *b"vun             ", system: 31, symbols: AK, sizes: THREES },
    LocaleSymbols { tag: *b"wae             ", system: 31, symbols: LMO, sizes: THREES },
    LocaleSymbols { tag: *b"wo              ", system: 31, symbols: AST, sizes: THREES },
    LocaleSymbols { tag: *b"xh              ", system: 31, symbols: BA, sizes: THREES },
    LocaleSymbols { tag: *b"xnr             ", system: 31, symbols: AK, sizes: THREE_AND_TWOS },
    LocaleSymbols { tag: *b"xog             ", system: 31, symbols: AK, sizes: THREES },
    LocaleSymbols { tag: *b"yav             ", system: 31, symbols: AF, sizes: THREES },
    LocaleSymbols { tag: *b"yi              ", system: 31, symbols: AK, sizes: THREES },
    LocaleSymbols { tag: *b"yo              ", system: 31, symbols: AK, sizes: THREES },
    LocaleSymbols { tag: *b"yrl             ", system: 31, symbols: AST, sizes: THREES },
    LocaleSymbols { tag: *b"yue             ", system: 31, symbols: AK, sizes: THREES },
    LocaleSymbols { tag: *b"zgh             ", system: 31, symbols: AF, sizes: THREES },
    LocaleSymbols { tag: *b"zh              ", system: 31, symbols: AK, sizes: THREES },
    LocaleSymbols { tag: *b"zu              ", system: 31, symbols: AK, sizes: THREES },
];

/// The locales that have symbols of their own in a numbering system.
#[rattlefmt::skip]
pub static LOCALES_BY_SYSTEM: [LocaleSymbols; 99] = [
    LocaleSymbols { tag: *b"oc-es           ", system: 0, symbols: AK, sizes: THREES },
    LocaleSymbols { tag: *b"ast             ", system: 2, symbols: AST_ARAB, sizes: THREES },
    LocaleSymbols { tag: *b"az              ", system: 2, symbols: AZ_ARAB, sizes: NO_GROUPS },
    LocaleSymbols { tag: *b"az-cyrl         ", system: 2, symbols: ARAB, sizes: THREES },
    LocaleSymbols { tag: *b"ckb             ", system: 2, symbols: AST_ARAB, sizes: THREES },
    LocaleSymbols { tag: *b"eu              ", system: 2, symbols: EU_ARAB, sizes: THREES },
    LocaleSymbols { tag: *b"fr              ", system: 2, symbols: FR_ARAB, sizes: THREES },
    LocaleSymbols { tag: *b"ha              ", system: 2, symbols: AK, sizes: THREES },
    LocaleSymbols { tag: *b"ig              ", system: 2, symbols: AST_ARAB, sizes: THREES },
    LocaleSymbols { tag: *b"ko              ", system: 2, symbols: AST_ARAB, sizes: THREES },
    LocaleSymbols { tag: *b"nb              ", system: 2, symbols: NB_ARAB, sizes: THREES },
    LocaleSymbols { tag: *b"nn              ", system: 2, symbols: NB_ARAB, sizes: THREES },
    LocaleSymbols { tag: *b"no              ", system: 2, symbols: NB_ARAB, sizes: THREES },
    LocaleSymbols { tag: *b"pa              ", system: 2, symbols: AK, sizes: THREE_AND_TWOS },
    LocaleSymbols { tag: *b"pa-arab         ", system: 2, symbols: ARAB, sizes: THREES },
    LocaleSymbols { tag: *b"pa-pk           ", system: 2, symbols: ARAB, sizes: THREES },
    LocaleSymbols { tag: *b"sd              ", system: 2, symbols: SD_ARAB, sizes: THREES },
    LocaleSymbols { tag: *b"sd-deva         ", system: 2, symbols: ARAB, sizes: THREES },
    LocaleSymbols { tag: *b"sd-in           ", system: 2, symbols: ARAB, sizes: THREES },
    LocaleSymbols { tag: *b"sv              ", system: 2, symbols: NB_ARAB, sizes: THREES },
    LocaleSymbols { tag: *b"to              ", system: 2, symbols: AST_ARAB, sizes: THREES },
    LocaleSymbols { tag: *b"ur              ", system: 2, symbols: UR_ARAB, sizes: THREES },
    LocaleSymbols { tag: *b"uz-cyrl         ", system: 2, symbols: EU_ARAB, sizes: THREES },
    LocaleSymbols { tag: *b"zh-hant         ", system: 2, symbols: ZH_HANT_ARAB, sizes: THREES },
    LocaleSymbols { tag: *b"zh-hk           ", system: 2, symbols: ZH_HANT_ARAB, sizes: THREES },
    LocaleSymbols { tag: *b"zh-mo           ", system: 2, symbols: ZH_HANT_ARAB, sizes: THREES },
    LocaleSymbols { tag: *b"zh-tw           ", system: 2, symbols: ZH_HANT_ARAB, sizes: THREES },
    LocaleSymbols { tag: *b"az              ", system: 3, symbols: AZ_ARABEXT, sizes: NO_GROUPS },
    LocaleSymbols { tag: *b"az-cyrl         ", system: 3, symbols: ARABEXT, sizes: THREES },
    LocaleSymbols { tag: *b"fa              ", system: 3, symbols: FA_ARABEXT, sizes: THREES },
    LocaleSymbols { tag: *b"gd              ", system: 3, symbols: GD_ARABEXT, sizes: THREES },
    LocaleSymbols { tag: *b"ha              ", system: 3, symbols: HA_ARABEXT, sizes: THREES },
    LocaleSymbols { tag: *b"ms              ", system: 3, symbols: MS_ARABEXT, sizes: THREES },
    LocaleSymbols { tag: *b"nb              ", system: 3, symbols: NB_ARABEXT, sizes: THREES },
    LocaleSymbols { tag: *b"nn              ", system: 3, symbols: NB_ARABEXT, sizes: THREES },
    LocaleSymbols { tag: *b"no              ", system: 3, symbols: NB_ARABEXT, sizes: THREES },
    LocaleSymbols { tag: *b"pa              ", system: 3, symbols: AZ_ARAB, sizes: THREE_AND_TWOS },
    LocaleSymbols { tag: *b"pa-arab         ", system: 3, symbols: ARABEXT, sizes: THREES },
    LocaleSymbols { tag: *b"pa-pk           ", system: 3, symbols: ARABEXT, sizes: THREES },
    LocaleSymbols { tag: *b"sd              ", system: 3, symbols: SD_ARABEXT, sizes: THREES },
    LocaleSymbols { tag: *b"sd-deva         ", system: 3, symbols: MS_ARABEXT, sizes: THREES },
    LocaleSymbols { tag: *b"sd-in           ", system: 3, symbols: MS_ARABEXT, sizes: THREES },
    LocaleSymbols { tag: *b"sv              ", system: 3, symbols: NB_ARABEXT, sizes: THREES },
    LocaleSymbols { tag: *b"uz              ", system: 3, symbols: EU_ARAB, sizes: THREES },
    LocaleSymbols { tag: *b"uz-af           ", system: 3, symbols: ARABEXT, sizes: THREES },
    LocaleSymbols { tag: *b"uz-arab         ", system: 3, symbols: ARABEXT, sizes: THREES },
    LocaleSymbols { tag: *b"zh-hant         ", system: 3, symbols: ZH_HANT_ARABEXT, sizes: THREES },
    LocaleSymbols { tag: *b"zh-hk           ", system: 3, symbols: ZH_HANT_ARABEXT, sizes: THREES },
    LocaleSymbols { tag: *b"zh-mo           ", system: 3, symbols: ZH_HANT_ARABEXT, sizes: THREES },
    LocaleSymbols { tag: *b"zh-tw           ", system: 3, symbols: ZH_HANT_ARABEXT, sizes: THREES },
    LocaleSymbols { tag: *b"oc-es           ", system: 4, symbols: AK, sizes: THREES },
    LocaleSymbols { tag: *b"oc-es           ", system: 5, symbols: AK, sizes: THREES },
    LocaleSymbols { tag: *b"oc-es           ", system: 7, symbols: AK, sizes: THREES },
    LocaleSymbols { tag: *b"oc-es           ", system: 8, symbols: AK, sizes: THREES },
    LocaleSymbols { tag: *b"oc-es           ", system: 9, symbols: AK, sizes: THREES },
    LocaleSymbols { tag: *b"oc-es           ", system: 10, symbols: AK, sizes: THREES },
    LocaleSymbols { tag: *b"sd              ", system: 10, symbols: KS, sizes: THREES },
    LocaleSymbols { tag: *b"sd-deva         ", system: 10, symbols: AK, sizes: THREES },
    LocaleSymbols { tag: *b"sd-in           ", system: 10, symbols: AK, sizes: THREES },
    LocaleSymbols { tag: *b"oc-es           ", system: 12, symbols: AK, sizes: THREES },
    LocaleSymbols { tag: *b"oc-es           ", system: 14, symbols: AK, sizes: THREES },
    LocaleSymbols { tag: *b"oc-es           ", system: 15, symbols: AK, sizes: THREES },
    LocaleSymbols { tag: *b"oc-es           ", system: 16, symbols: AK, sizes: THREES },
    LocaleSymbols { tag: *b"oc-es           ", system: 18, symbols: AK, sizes: THREES },
    LocaleSymbols { tag: *b"oc-es           ", system: 19, symbols: AK, sizes: THREES },
    LocaleSymbols { tag: *b"oc-es           ", system: 21, symbols: AK, sizes: THREES },
    LocaleSymbols { tag: *b"oc-es           ", system: 22, symbols: AK, sizes: THREES },
    LocaleSymbols { tag: *b"oc-es           ", system: 23, symbols: AK, sizes: THREES },
    LocaleSymbols { tag: *b"km              ", system: 25, symbols: AST, sizes: THREES },
    LocaleSymbols { tag: *b"oc-es           ", system: 25, symbols: AK, sizes: THREES },
    LocaleSymbols { tag: *b"oc-es           ", system: 26, symbols: AK, sizes: THREES },
    LocaleSymbols { tag: *b"oc-es           ", system: 28, symbols: AK, sizes: THREES },
    LocaleSymbols { tag: *b"oc-es           ", system: 29, symbols: AK, sizes: THREES },
    LocaleSymbols { tag: *b"oc-es           ", system: 30, symbols: AK, sizes: THREES },
    LocaleSymbols { tag: *b"oc-es           ", system: 32, symbols: AK, sizes: THREES },
    LocaleSymbols { tag: *b"oc-es           ", system: 33, symbols: AK, sizes: THREES },
    LocaleSymbols { tag: *b"oc-es           ", system: 39, symbols: AK, sizes: THREES },
    LocaleSymbols { tag: *b"mn              ", system: 41, symbols: AF, sizes: THREES },
    LocaleSymbols { tag: *b"oc-es           ", system: 41, symbols: AK, sizes: THREES },
    LocaleSymbols { tag: *b"oc-es           ", system: 43, symbols: AK, sizes: THREES },
    LocaleSymbols { tag: *b"oc-es           ", system: 44, symbols: AK, sizes: THREES },
    LocaleSymbols { tag: *b"oc-es           ", system: 47, symbols: AK, sizes: THREES },
    LocaleSymbols { tag: *b"oc-es           ", system: 51, symbols: AK, sizes: THREES },
    LocaleSymbols { tag: *b"oc-es           ", system: 52, symbols: AK, sizes: THREES },
    LocaleSymbols { tag: *b"oc-es           ", system: 54, symbols: AK, sizes: THREES },
    LocaleSymbols { tag: *b"oc-es           ", system: 55, symbols: AK, sizes: THREES },
    LocaleSymbols { tag: *b"oc-es           ", system: 57, symbols: AK, sizes: THREES },
    LocaleSymbols { tag: *b"oc-es           ", system: 58, symbols: AK, sizes: THREES },
    LocaleSymbols { tag: *b"oc-es           ", system: 60, symbols: AK, sizes: THREES },
    LocaleSymbols { tag: *b"oc-es           ", system: 63, symbols: AK, sizes: THREES },
    LocaleSymbols { tag: *b"oc-es           ", system: 64, symbols: AK, sizes: THREES },
    LocaleSymbols { tag: *b"oc-es           ", system: 66, symbols: AK, sizes: THREES },
    LocaleSymbols { tag: *b"oc-es           ", system: 67, symbols: AK, sizes: THREES },
    LocaleSymbols { tag: *b"oc-es           ", system: 68, symbols: AK, sizes: THREES },
    LocaleSymbols { tag: *b"oc-es           ", system: 69, symbols: AK, sizes: THREES },
    LocaleSymbols { tag: *b"te              ", system: 69, symbols: AK, sizes: THREES },
    LocaleSymbols { tag: *b"oc-es           ", system: 70, symbols: AK, sizes: THREES },
    LocaleSymbols { tag: *b"oc-es           ", system: 71, symbols: AK, sizes: THREES },
    LocaleSymbols { tag: *b"oc-es           ", system: 75, symbols: AK, sizes: THREES },
];

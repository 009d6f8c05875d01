//! The plural rules of languages.
// Written by tools/locales/make_tables.py from data of CLDR 48; their license is tools/locales/LICENSE. Do not edit.
use super::rows::TableRange;
use super::rows::plurals::{LanguageRules, RelationRow, RuleRow, RuleSet};
use plural_rules::Operand::*;
use plural_rules::PluralCategory::*;
use plural_rules::Range;

#[rattlefmt::skip]
pub const OTHER: RuleSet = RuleSet { text: TableRange(4035, 4041), rules: TableRange(0, 1) };

#[rattlefmt::skip]
const AF: RuleSet = RuleSet { text: TableRange(13, 23), rules: TableRange(1, 2) };

#[rattlefmt::skip]
const AK: RuleSet = RuleSet { text: TableRange(3987, 4000), rules: TableRange(2, 3) };

#[rattlefmt::skip]
const AM: RuleSet = RuleSet { text: TableRange(3832, 3851), rules: TableRange(3, 4) };

#[rattlefmt::skip]
const AR: RuleSet = RuleSet { text: TableRange(2384, 2465), rules: TableRange(4, 9) };

#[rattlefmt::skip]
const AS_ORDINAL: RuleSet = RuleSet { text: TableRange(3057, 3117), rules: TableRange(9, 13) };

#[rattlefmt::skip]
const AST: RuleSet = RuleSet { text: TableRange(575, 595), rules: TableRange(13, 14) };

#[rattlefmt::skip]
const AZ_ORDINAL: RuleSet = RuleSet { text: TableRange(914, 1080), rules: TableRange(14, 17) };

#[rattlefmt::skip]
const BE: RuleSet = RuleSet { text: TableRange(1379, 1509), rules: TableRange(17, 20) };

#[rattlefmt::skip]
const BE_ORDINAL: RuleSet = RuleSet { text: TableRange(3684, 3722), rules: TableRange(20, 21) };

#[rattlefmt::skip]
const BLO: RuleSet = RuleSet { text: TableRange(0, 23), rules: TableRange(4, 6) };

#[rattlefmt::skip]
const BLO_ORDINAL: RuleSet = RuleSet { text: TableRange(3641, 3684), rules: TableRange(21, 24) };

#[rattlefmt::skip]
const BR: RuleSet = RuleSet { text: TableRange(403, 575), rules: TableRange(24, 28) };

#[rattlefmt::skip]
const BS: RuleSet = RuleSet { text: TableRange(1080, 1246), rules: TableRange(28, 30) };

#[rattlefmt::skip]
const CA: RuleSet = RuleSet { text: TableRange(2127, 2214), rules: TableRange(30, 32) };

#[rattlefmt::skip]
const CA_ORDINAL: RuleSet = RuleSet { text: TableRange(3760, 3796), rules: TableRange(32, 35) };

#[rattlefmt::skip]
const CEB: RuleSet = RuleSet { text: TableRange(2301, 2384), rules: TableRange(35, 36) };

#[rattlefmt::skip]
const CS: RuleSet = RuleSet { text: TableRange(3177, 3236), rules: TableRange(36, 39) };

#[rattlefmt::skip]
const CY: RuleSet = RuleSet { text: TableRange(3117, 3177), rules: TableRange(39, 44) };

#[rattlefmt::skip]
const CY_ORDINAL: RuleSet = RuleSet { text: TableRange(2925, 2995), rules: TableRange(44, 49) };

#[rattlefmt::skip]
const DA: RuleSet = RuleSet { text: TableRange(3867, 3899), rules: TableRange(49, 50) };

#[rattlefmt::skip]
const DSB: RuleSet = RuleSet { text: TableRange(1246, 1379), rules: TableRange(50, 53) };

#[rattlefmt::skip]
const EN_ORDINAL: RuleSet = RuleSet { text: TableRange(1836, 1939), rules: TableRange(53, 56) };

#[rattlefmt::skip]
const ES: RuleSet = RuleSet { text: TableRange(2624, 2701), rules: TableRange(56, 58) };

#[rattlefmt::skip]
const FF: RuleSet = RuleSet { text: TableRange(2612, 2624), rules: TableRange(58, 59) };

#[rattlefmt::skip]
const FR: RuleSet = RuleSet { text: TableRange(2545, 2624), rules: TableRange(59, 61) };

#[rattlefmt::skip]
const GA: RuleSet = RuleSet { text: TableRange(3347, 3401), rules: TableRange(61, 65) };

#[rattlefmt::skip]
const GD: RuleSet = RuleSet { text: TableRange(3452, 3503), rules: TableRange(65, 68) };

#[rattlefmt::skip]
const GD_ORDINAL: RuleSet = RuleSet { text: TableRange(3598, 3641), rules: TableRange(68, 71) };

#[rattlefmt::skip]
const GU_ORDINAL: RuleSet = RuleSet { text: TableRange(3503, 3552), rules: TableRange(71, 75) };

#[rattlefmt::skip]
const GV: RuleSet = RuleSet { text: TableRange(1730, 1836), rules: TableRange(75, 79) };

#[rattlefmt::skip]
const HE: RuleSet = RuleSet { text: TableRange(2995, 3057), rules: TableRange(79, 81) };

#[rattlefmt::skip]
const HU_ORDINAL: RuleSet = RuleSet { text: TableRange(3057, 3069), rules: TableRange(81, 82) };

#[rattlefmt::skip]
const IS: RuleSet = RuleSet { text: TableRange(2778, 2853), rules: TableRange(82, 83) };

#[rattlefmt::skip]
const IT_ORDINAL: RuleSet = RuleSet { text: TableRange(4014, 4035), rules: TableRange(83, 84) };

#[rattlefmt::skip]
const IU: RuleSet = RuleSet { text: TableRange(2397, 2419), rules: TableRange(5, 7) };

#[rattlefmt::skip]
const KA_ORDINAL: RuleSet = RuleSet { text: TableRange(3401, 3452), rules: TableRange(84, 86) };

#[rattlefmt::skip]
const KK_ORDINAL: RuleSet = RuleSet { text: TableRange(3292, 3347), rules: TableRange(86, 87) };

#[rattlefmt::skip]
const KOK_ORDINAL: RuleSet = RuleSet { text: TableRange(3503, 3539), rules: TableRange(71, 74) };

#[rattlefmt::skip]
const KW: RuleSet = RuleSet { text: TableRange(0, 223), rules: TableRange(87, 92) };

#[rattlefmt::skip]
const KW_ORDINAL: RuleSet = RuleSet { text: TableRange(2214, 2301), rules: TableRange(92, 94) };

#[rattlefmt::skip]
const LAG: RuleSet = RuleSet { text: TableRange(3796, 3832), rules: TableRange(94, 96) };

#[rattlefmt::skip]
const LIJ_ORDINAL: RuleSet = RuleSet { text: TableRange(3930, 3960), rules: TableRange(96, 97) };

#[rattlefmt::skip]
const LT: RuleSet = RuleSet { text: TableRange(2034, 2127), rules: TableRange(97, 100) };

#[rattlefmt::skip]
const LV: RuleSet = RuleSet { text: TableRange(746, 914), rules: TableRange(100, 102) };

#[rattlefmt::skip]
const MK: RuleSet = RuleSet { text: TableRange(1080, 1155), rules: TableRange(28, 29) };

#[rattlefmt::skip]
const MK_ORDINAL: RuleSet = RuleSet { text: TableRange(1621, 1730), rules: TableRange(102, 105) };

#[rattlefmt::skip]
const MO: RuleSet = RuleSet { text: TableRange(2853, 2925), rules: TableRange(105, 107) };

#[rattlefmt::skip]
const MT: RuleSet = RuleSet { text: TableRange(2701, 2778), rules: TableRange(107, 111) };

#[rattlefmt::skip]
const NE_ORDINAL: RuleSet = RuleSet { text: TableRange(2214, 2227), rules: TableRange(111, 112) };

#[rattlefmt::skip]
const OR_ORDINAL: RuleSet = RuleSet { text: TableRange(3236, 3292), rules: TableRange(112, 116) };

#[rattlefmt::skip]
const PL: RuleSet = RuleSet { text: TableRange(575, 746), rules: TableRange(116, 119) };

#[rattlefmt::skip]
const PT: RuleSet = RuleSet { text: TableRange(2465, 2545), rules: TableRange(119, 121) };

#[rattlefmt::skip]
const RU: RuleSet = RuleSet { text: TableRange(223, 403), rules: TableRange(121, 124) };

#[rattlefmt::skip]
const SGS: RuleSet = RuleSet { text: TableRange(1509, 1621), rules: TableRange(124, 128) };

#[rattlefmt::skip]
const SHI: RuleSet = RuleSet { text: TableRange(3832, 3867), rules: TableRange(128, 130) };

#[rattlefmt::skip]
const SI: RuleSet = RuleSet { text: TableRange(3899, 3930), rules: TableRange(130, 131) };

#[rattlefmt::skip]
const SL: RuleSet = RuleSet { text: TableRange(1939, 2034), rules: TableRange(131, 134) };

#[rattlefmt::skip]
const SQ_ORDINAL: RuleSet = RuleSet { text: TableRange(3552, 3598), rules: TableRange(134, 136) };

#[rattlefmt::skip]
const SV_ORDINAL: RuleSet = RuleSet { text: TableRange(3722, 3760), rules: TableRange(136, 137) };

#[rattlefmt::skip]
const TK_ORDINAL: RuleSet = RuleSet { text: TableRange(3960, 3987), rules: TableRange(137, 138) };

#[rattlefmt::skip]
const TZM: RuleSet = RuleSet { text: TableRange(3987, 4014), rules: TableRange(138, 139) };

#[rattlefmt::skip]
const UK_ORDINAL: RuleSet = RuleSet { text: TableRange(1906, 1939), rules: TableRange(55, 56) };

/// The languages that have plural rules.
#[rattlefmt::skip]
pub static PLURAL_RULES: [LanguageRules; 227] = [
    LanguageRules { tag: *b"af              ", cardinal: AF, ordinal: OTHER },
    LanguageRules { tag: *b"ak              ", cardinal: AK, ordinal: OTHER },
    LanguageRules { tag: *b"am              ", cardinal: AM, ordinal: OTHER },
    LanguageRules { tag: *b"an              ", cardinal: AF, ordinal: OTHER },
    LanguageRules { tag: *b"ar              ", cardinal: AR, ordinal: OTHER },
    LanguageRules { tag: *b"ars             ", cardinal: AR, ordinal: OTHER },
    LanguageRules { tag: *b"as              ", cardinal: AM, ordinal: AS_ORDINAL },
    LanguageRules { tag: *b"asa             ", cardinal: AF, ordinal: OTHER },
    LanguageRules { tag: *b"ast             ", cardinal: AST, ordinal: OTHER },
    LanguageRules { tag: *b"az              ", cardinal: AF, ordinal: AZ_ORDINAL },
    LanguageRules { tag: *b"bal             ", cardinal: AF, ordinal: AF },
    LanguageRules { tag: *b"be              ", cardinal: BE, ordinal: BE_ORDINAL },
    LanguageRules { tag: *b"bem             ", cardinal: AF, ordinal: OTHER },
    LanguageRules { tag: *b"bez             ", cardinal: AF, ordinal: OTHER },
    LanguageRules { tag: *b"bg              ", cardinal: AF, ordinal: OTHER },
    LanguageRules { tag: *b"bho             ", cardinal: AK, ordinal: OTHER },
    LanguageRules { tag: *b"blo             ", cardinal: BLO, ordinal: BLO_ORDINAL },
    LanguageRules { tag: *b"bm              ", cardinal: OTHER, ordinal: OTHER },
    LanguageRules { tag: *b"bn              ", cardinal: AM, ordinal: AS_ORDINAL },
    LanguageRules { tag: *b"bo              ", cardinal: OTHER, ordinal: OTHER },
    LanguageRules { tag: *b"br              ", cardinal: BR, ordinal: OTHER },
    LanguageRules { tag: *b"brx             ", cardinal: AF, ordinal: OTHER },
    LanguageRules { tag: *b"bs              ", cardinal: BS, ordinal: OTHER },
    LanguageRules { tag: *b"ca              ", cardinal: CA, ordinal: CA_ORDINAL },
    LanguageRules { tag: *b"ce              ", cardinal: AF, ordinal: OTHER },
    LanguageRules { tag: *b"ceb             ", cardinal: CEB, ordinal: OTHER },
    LanguageRules { tag: *b"cgg             ", cardinal: AF, ordinal: OTHER },
    LanguageRules { tag: *b"chr             ", cardinal: AF, ordinal: OTHER },
    LanguageRules { tag: *b"ckb             ", cardinal: AF, ordinal: OTHER },
    LanguageRules { tag: *b"cs              ", cardinal: CS, ordinal: OTHER },
    LanguageRules { tag: *b"csw             ", cardinal: AK, ordinal: OTHER },
    LanguageRules { tag: *b"cv              ", cardinal: BLO, ordinal: OTHER },
    LanguageRules { tag: *b"cy              ", cardinal: CY, ordinal: CY_ORDINAL },
    LanguageRules { tag: *b"da              ", cardinal: DA, ordinal: OTHER },
    LanguageRules { tag: *b"de              ", cardinal: AST, ordinal: OTHER },
    LanguageRules { tag: *b"doi             ", cardinal: AM, ordinal: OTHER },
    LanguageRules { tag: *b"dsb             ", cardinal: DSB, ordinal: OTHER },
    LanguageRules { tag: *b"dv              ", cardinal: AF, ordinal: OTHER },
    LanguageRules { tag: *b"dz              ", cardinal: OTHER, ordinal: OTHER },
    LanguageRules { tag: *b"ee              ", cardinal: AF, ordinal: OTHER },
    LanguageRules { tag: *b"el              ", cardinal: AF, ordinal: OTHER },
    LanguageRules { tag: *b"en              ", cardinal: AST, ordinal: EN_ORDINAL },
    LanguageRules { tag: *b"eo              ", cardinal: AF, ordinal: OTHER },
    LanguageRules { tag: *b"es              ", cardinal: ES, ordinal: OTHER },
    LanguageRules { tag: *b"et              ", cardinal: AST, ordinal: OTHER },
    LanguageRules { tag: *b"eu              ", cardinal: AF, ordinal: OTHER },
    LanguageRules { tag: *b"fa              ", cardinal: AM, ordinal: OTHER },
    LanguageRules { tag: *b"ff              ", cardinal: FF, ordinal: OTHER },
    LanguageRules { tag: *b"fi              ", cardinal: AST, ordinal: OTHER },
    LanguageRules { tag: *b"fil             ", cardinal: CEB, ordinal: AF },
    LanguageRules { tag: *b"fo              ", cardinal: AF, ordinal: OTHER },
    LanguageRules { tag: *b"fr              ", cardinal: FR, ordinal: AF },
    LanguageRules { tag: *b"fur             ", cardinal: AF, ordinal: OTHER },
    LanguageRules { tag: *b"fy              ", cardinal: AST, ordinal: OTHER },
    LanguageRules { tag: *b"ga              ", cardinal: GA, ordinal: AF },
    LanguageRules { tag: *b"gd              ", cardinal: GD, ordinal: GD_ORDINAL },
    LanguageRules { tag: *b"gl              ", cardinal: AST, ordinal: OTHER },
    LanguageRules { tag: *b"gsw             ", cardinal: AF, ordinal: OTHER },
    LanguageRules { tag: *b"gu              ", cardinal: AM, ordinal: GU_ORDINAL },
    LanguageRules { tag: *b"guw             ", cardinal: AK, ordinal: OTHER },
    LanguageRules { tag: *b"gv              ", cardinal: GV, ordinal: OTHER },
    LanguageRules { tag: *b"ha              ", cardinal: AF, ordinal: OTHER },
    LanguageRules { tag: *b"haw             ", cardinal: AF, ordinal: OTHER },
    LanguageRules { tag: *b"he              ", cardinal: HE, ordinal: OTHER },
    LanguageRules { tag: *b"hi              ", cardinal: AM, ordinal: GU_ORDINAL },
    LanguageRules { tag: *b"hnj             ", cardinal: OTHER, ordinal: OTHER },
    LanguageRules { tag: *b"hr              ", cardinal: BS, ordinal: OTHER },
    LanguageRules { tag: *b"hsb             ", cardinal: DSB, ordinal: OTHER },
    LanguageRules { tag: *b"hu              ", cardinal: AF, ordinal: HU_ORDINAL },
    LanguageRules { tag: *b"hy              ", cardinal: FF, ordinal: AF },
    LanguageRules { tag: *b"ia              ", cardinal: AST, ordinal: OTHER },
    LanguageRules { tag: *b"id              ", cardinal: OTHER, ordinal: OTHER },
    LanguageRules { tag: *b"ie              ", cardinal: AST, ordinal: OTHER },
    LanguageRules { tag: *b"ig              ", cardinal: OTHER, ordinal: OTHER },
    LanguageRules { tag: *b"ii              ", cardinal: OTHER, ordinal: OTHER },
    LanguageRules { tag: *b"in              ", cardinal: OTHER, ordinal: OTHER },
    LanguageRules { tag: *b"io              ", cardinal: AST, ordinal: OTHER },
    LanguageRules { tag: *b"is              ", cardinal: IS, ordinal: OTHER },
    LanguageRules { tag: *b"it              ", cardinal: CA, ordinal: IT_ORDINAL },
    LanguageRules { tag: *b"iu              ", cardinal: IU, ordinal: OTHER },
    LanguageRules { tag: *b"iw              ", cardinal: HE, ordinal: OTHER },
    LanguageRules { tag: *b"ja              ", cardinal: OTHER, ordinal: OTHER },
    LanguageRules { tag: *b"jbo             ", cardinal: OTHER, ordinal: OTHER },
    LanguageRules { tag: *b"jgo             ", cardinal: AF, ordinal: OTHER },
    LanguageRules { tag: *b"ji              ", cardinal: AST, ordinal: OTHER },
    LanguageRules { tag: *b"jmc             ", cardinal: AF, ordinal: OTHER },
    LanguageRules { tag: *b"jv              ", cardinal: OTHER, ordinal: OTHER },
    LanguageRules { tag: *b"jw              ", cardinal: OTHER, ordinal: OTHER },
    LanguageRules { tag: *b"ka              ", cardinal: AF, ordinal: KA_ORDINAL },
    LanguageRules { tag: *b"kab             ", cardinal: FF, ordinal: OTHER },
    LanguageRules { tag: *b"kaj             ", cardinal: AF, ordinal: OTHER },
    LanguageRules { tag: *b"kcg             ", cardinal: AF, ordinal: OTHER },
    LanguageRules { tag: *b"kde             ", cardinal: OTHER, ordinal: OTHER },
    LanguageRules { tag: *b"kea             ", cardinal: OTHER, ordinal: OTHER },
    LanguageRules { tag: *b"kk              ", cardinal: AF, ordinal: KK_ORDINAL },
    LanguageRules { tag: *b"kkj             ", cardinal: AF, ordinal: OTHER },
    LanguageRules { tag: *b"kl              ", cardinal: AF, ordinal: OTHER },
    LanguageRules { tag: *b"km              ", cardinal: OTHER, ordinal: OTHER },
    LanguageRules { tag: *b"kn              ", cardinal: AM, ordinal: OTHER },
    LanguageRules { tag: *b"ko              ", cardinal: OTHER, ordinal: OTHER },
    LanguageRules { tag: *b"kok             ", cardinal: AM, ordinal: KOK_ORDINAL },
    LanguageRules { tag: *b"kok-latn        ", cardinal: AM, ordinal: KOK_ORDINAL },
    LanguageRules { tag: *b"ks              ", cardinal: AF, ordinal: OTHER },
    LanguageRules { tag: *b"ksb             ", cardinal: AF, ordinal: OTHER },
    LanguageRules { tag: *b"ksh             ", cardinal: BLO, ordinal: OTHER },
    LanguageRules { tag: *b"ku              ", cardinal: AF, ordinal: OTHER },
    LanguageRules { tag: *b"kw              ", cardinal: KW, ordinal: KW_ORDINAL },
    LanguageRules { tag: *b"ky              ", cardinal: AF, ordinal: OTHER },
    LanguageRules { tag: *b"lag             ", cardinal: LAG, ordinal: OTHER },
    LanguageRules { tag: *b"lb              ", cardinal: AF, ordinal: OTHER },
    LanguageRules { tag: *b"lg              ", cardinal: AF, ordinal: OTHER },
    LanguageRules { tag: *b"lij             ", cardinal: AST, ordinal: LIJ_ORDINAL },
    LanguageRules { tag: *b"lkt             ", cardinal: OTHER, ordinal: OTHER },
    LanguageRules { tag: *b"lld             ", cardinal: CA, ordinal: IT_ORDINAL },
    LanguageRules { tag: *b"ln              ", cardinal: AK, ordinal: OTHER },
    LanguageRules { tag: *b"lo              ", cardinal: OTHER, ordinal: AF },
    LanguageRules { tag: *b"lt              ", cardinal: LT, ordinal: OTHER },
    LanguageRules { tag: *b"lv              ", cardinal: LV, ordinal: OTHER },
    LanguageRules { tag: *b"mas             ", cardinal: AF, ordinal: OTHER },
    LanguageRules { tag: *b"mg              ", cardinal: AK, ordinal: OTHER },
    LanguageRules { tag: *b"mgo             ", cardinal: AF, ordinal: OTHER },
    LanguageRules { tag: *b"mk              ", cardinal: MK, ordinal: MK_ORDINAL },
    LanguageRules { tag: *b"ml              ", cardinal: AF, ordinal: OTHER },
    LanguageRules { tag: *b"mn              ", cardinal: AF, ordinal: OTHER },
    LanguageRules { tag: *b"mo              ", cardinal: MO, ordinal: AF },
    LanguageRules { tag: *b"mr              ", cardinal: AF, ordinal: KOK_ORDINAL },
    LanguageRules { tag: *b"ms              ", cardinal: OTHER, ordinal: AF },
    LanguageRules { tag: *b"mt              ", cardinal: MT, ordinal: OTHER },
    LanguageRules { tag: *b"my              ", cardinal: OTHER, ordinal: OTHER },
    LanguageRules { tag: *b"nah             ", cardinal: AF, ordinal: OTHER },
    LanguageRules { tag: *b"naq             ", cardinal: IU, ordinal: OTHER },
    LanguageRules { tag: *b"nb              ", cardinal: AF, ordinal: OTHER },
    LanguageRules { tag: *b"nd              ", cardinal: AF, ordinal: OTHER },
    LanguageRules { tag: *b"ne              ", cardinal: AF, ordinal: NE_ORDINAL },
    LanguageRules { tag: *b"nl              ", cardinal: AST, ordinal: OTHER },
    LanguageRules { tag: *b"nn              ", cardinal: AF, ordinal: OTHER },
    LanguageRules { tag: *b"nnh             ", cardinal: AF, ordinal: OTHER },
    LanguageRules { tag: *b"no              ", cardinal: AF, ordinal: OTHER },
    LanguageRules { tag: *b"nqo             ", cardinal: OTHER, ordinal: OTHER },
    LanguageRules { tag: *b"nr              ", cardinal: AF, ordinal: OTHER },
    LanguageRules { tag: *b"nso             ", cardinal: AK, ordinal: OTHER },
    LanguageRules { tag: *b"ny              ", cardinal: AF, ordinal: OTHER },
    LanguageRules { tag: *b"nyn             ", cardinal: AF, ordinal: OTHER },
    LanguageRules { tag: *b"om              ", cardinal: AF, ordinal: OTHER },
    LanguageRules { tag: *b"or              ", cardinal: AF, ordinal: OR_ORDINAL },
    LanguageRules { tag: *b"os              ", cardinal: AF, ordinal: OTHER },
    LanguageRules { tag: *b"osa             ", cardinal: OTHER, ordinal: OTHER },
    LanguageRules { tag: *b"pa              ", cardinal: AK, ordinal: OTHER },
    LanguageRules { tag: *b"pap             ", cardinal: AF, ordinal: OTHER },
    LanguageRules { tag: *b"pcm             ", cardinal: AM, ordinal: OTHER },
    LanguageRules { tag: *b"pl              ", cardinal: PL, ordinal: OTHER },
    LanguageRules { tag: *b"prg             ", cardinal: LV, ordinal: OTHER },
    LanguageRules { tag: *b"ps              ", cardinal: AF, ordinal: OTHER },
    LanguageRules { tag: *b"pt              ", cardinal: PT, ordinal: OTHER },
    LanguageRules { tag: *b"pt-pt           ", cardinal: CA, ordinal: OTHER },
    LanguageRules { tag: *b"rm              ", cardinal: AF, ordinal: OTHER },
    LanguageRules { tag: *b"ro              ", cardinal: MO, ordinal: AF },
    LanguageRules { tag: *b"rof             ", cardinal: AF, ordinal: OTHER },
    LanguageRules { tag: *b"root            ", cardinal: OTHER, ordinal: OTHER },
    LanguageRules { tag: *b"ru              ", cardinal: RU, ordinal: OTHER },
    LanguageRules { tag: *b"rwk             ", cardinal: AF, ordinal: OTHER },
    LanguageRules { tag: *b"sah             ", cardinal: OTHER, ordinal: OTHER },
    LanguageRules { tag: *b"saq             ", cardinal: AF, ordinal: OTHER },
    LanguageRules { tag: *b"sat             ", cardinal: IU, ordinal: OTHER },
    LanguageRules { tag: *b"sc              ", cardinal: AST, ordinal: IT_ORDINAL },
    LanguageRules { tag: *b"scn             ", cardinal: CA, ordinal: LIJ_ORDINAL },
    LanguageRules { tag: *b"sd              ", cardinal: AF, ordinal: OTHER },
    LanguageRules { tag: *b"sdh             ", cardinal: AF, ordinal: OTHER },
    LanguageRules { tag: *b"se              ", cardinal: IU, ordinal: OTHER },
    LanguageRules { tag: *b"seh             ", cardinal: AF, ordinal: OTHER },
    LanguageRules { tag: *b"ses             ", cardinal: OTHER, ordinal: OTHER },
    LanguageRules { tag: *b"sg              ", cardinal: OTHER, ordinal: OTHER },
    LanguageRules { tag: *b"sgs             ", cardinal: SGS, ordinal: OTHER },
    LanguageRules { tag: *b"sh              ", cardinal: BS, ordinal: OTHER },
    LanguageRules { tag: *b"shi             ", cardinal: SHI, ordinal: OTHER },
    LanguageRules { tag: *b"si              ", cardinal: SI, ordinal: OTHER },
    LanguageRules { tag: *b"sk              ", cardinal: CS, ordinal: OTHER },
    LanguageRules { tag: *b"sl              ", cardinal: SL, ordinal: OTHER },
    LanguageRules { tag: *b"sma             ", cardinal: IU, ordinal: OTHER },
    LanguageRules { tag: *b"smi             ", cardinal: IU, ordinal: OTHER },
    LanguageRules { tag: *b"smj             ", cardinal: IU, ordinal: OTHER },
    LanguageRules { tag: *b"smn             ", cardinal: IU, ordinal: OTHER },
    LanguageRules { tag: *b"sms             ", cardinal: IU, ordinal: OTHER },
    LanguageRules { tag: *b"sn              ", cardinal: AF, ordinal: OTHER },
    LanguageRules { tag: *b"so              ", cardinal: AF, ordinal: OTHER },
    LanguageRules { tag: *b"sq              ", cardinal: AF, ordinal: SQ_ORDINAL },
    LanguageRules { tag: *b"sr              ", cardinal: BS, ordinal: OTHER },
    LanguageRules { tag: *b"ss              ", cardinal: AF, ordinal: OTHER },
    LanguageRules { tag: *b"ssy             ", cardinal: AF, ordinal: OTHER },
    LanguageRules { tag: *b"st              ", cardinal: AF, ordinal: OTHER },
    LanguageRules { tag: *b"su              ", cardinal: OTHER, ordinal: OTHER },
    LanguageRules { tag: *b"sv              ", cardinal: AST, ordinal: SV_ORDINAL },
    LanguageRules { tag: *b"sw              ", cardinal: AST, ordinal: OTHER },
    LanguageRules { tag: *b"syr             ", cardinal: AF, ordinal: OTHER },
    LanguageRules { tag: *b"ta              ", cardinal: AF, ordinal: OTHER },
    LanguageRules { tag: *b"te              ", cardinal: AF, ordinal: OTHER },
    LanguageRules { tag: *b"teo             ", cardinal: AF, ordinal: OTHER },
    LanguageRules { tag: *b"th              ", cardinal: OTHER, ordinal: OTHER },
    LanguageRules { tag: *b"ti              ", cardinal: AK, ordinal: OTHER },
    LanguageRules { tag: *b"tig             ", cardinal: AF, ordinal: OTHER },
    LanguageRules { tag: *b"tk              ", cardinal: AF, ordinal: TK_ORDINAL },
    LanguageRules { tag: *b"tl              ", cardinal: CEB, ordinal: AF },
    LanguageRules { tag: *b"tn              ", cardinal: AF, ordinal: OTHER },
    LanguageRules { tag: *b"to              ", cardinal: OTHER, ordinal: OTHER },
    LanguageRules { tag: *b"tpi             ", cardinal: OTHER, ordinal: OTHER },
    LanguageRules { tag: *b"tr              ", cardinal: AF, ordinal: OTHER },
    LanguageRules { tag: *b"ts              ", cardinal: AF, ordinal: OTHER },
    LanguageRules { tag: *b"tzm             ", cardinal: TZM, ordinal: OTHER },
    LanguageRules { tag: *b"ug              ", cardinal: AF, ordinal: OTHER },
    LanguageRules { tag: *b"uk              ", cardinal: RU, ordinal: UK_ORDINAL },
    LanguageRules { tag: *b"ur              ", cardinal: AST, ordinal: OTHER },
    LanguageRules { tag: *b"uz              ", cardinal: AF, ordinal: OTHER },
    LanguageRules { tag: *b"ve              ", cardinal: AF, ordinal: OTHER },
    LanguageRules { tag: *b"vec             ", cardinal: CA, ordinal: IT_ORDINAL },
    LanguageRules { tag: *b"vi              ", cardinal: OTHER, ordinal: AF },
    LanguageRules { tag: *b"vo              ", cardinal: AF, ordinal: OTHER },
    LanguageRules { tag: *b"vun             ", cardinal: AF, ordinal: OTHER },
    LanguageRules { tag: *b"wa              ", cardinal: AK, ordinal: OTHER },
    LanguageRules { tag: *b"wae             ", cardinal: AF, ordinal: OTHER },
    LanguageRules { tag: *b"wo              ", cardinal: OTHER, ordinal: OTHER },
    LanguageRules { tag: *b"xh              ", cardinal: AF, ordinal: OTHER },
    LanguageRules { tag: *b"xog             ", cardinal: AF, ordinal: OTHER },
    LanguageRules { tag: *b"yi              ", cardinal: AST, ordinal: OTHER },
    LanguageRules { tag: *b"yo              ", cardinal: OTHER, ordinal: OTHER },
    LanguageRules { tag: *b"yue             ", cardinal: OTHER, ordinal: OTHER },
    LanguageRules { tag: *b"zh              ", cardinal: OTHER, ordinal: OTHER },
    LanguageRules { tag: *b"zu              ", cardinal: AM, ordinal: OTHER },
];

/// The texts of plural rules.
#[rattlefmt::skip]
pub static PLURAL_RULES_TEXTS: [u8; 4041] = *b"\
zero: n = 0; one: n = 1; two: n % 100 = 2,22,42,62,82 or n % 1000 = 0 and n % 100000 = 1000..20000,40000,60000\
,80000 or n != 0 and n % 1000000 = 100000; few: n % 100 = 3,23,43,63,83; many: n != 1 and n % 100 = 1,21,41,61\
,81one: v = 0 and i % 10 = 1 and i % 100 != 11; few: v = 0 and i % 10 = 2..4 and i % 100 != 12..14; many: v = \
0 and i % 10 = 0 or v = 0 and i % 10 = 5..9 or v = 0 and i % 100 = 11..14one: n % 10 = 1 and n % 100 != 11,71,\
91; two: n % 10 = 2 and n % 100 != 12,72,92; few: n % 10 = 3..4,9 and n % 100 != 10..19,70..79,90..99; many: n\
\x20!= 0 and n % 1000000 = 0one: i = 1 and v = 0; few: v = 0 and i % 10 = 2..4 and i % 100 != 12..14; many: v \
= 0 and i != 1 and i % 10 = 0..1 or v = 0 and i % 10 = 5..9 or v = 0 and i % 100 = 12..14zero: n % 10 = 0 or n\
\x20% 100 = 11..19 or v = 2 and f % 100 = 11..19; one: n % 10 = 1 and n % 100 != 11 or v = 2 and f % 10 = 1 an\
d f % 100 != 11 or v != 2 and f % 10 = 1one: i % 10 = 1,2,5,7,8 or i % 100 = 20,50,70,80; few: i % 10 = 3,4 or\
\x20i % 1000 = 100,200,300,400,500,600,700,800,900; many: i = 0 or i % 10 = 6 or i % 100 = 40,60,90one: v = 0 \
and i % 10 = 1 and i % 100 != 11 or f % 10 = 1 and f % 100 != 11; few: v = 0 and i % 10 = 2..4 and i % 100 != \
12..14 or f % 10 = 2..4 and f % 100 != 12..14one: v = 0 and i % 100 = 1 or f % 100 = 1; two: v = 0 and i % 100\
\x20= 2 or f % 100 = 2; few: v = 0 and i % 100 = 3..4 or f % 100 = 3..4one: n % 10 = 1 and n % 100 != 11; few:\
\x20n % 10 = 2..4 and n % 100 != 12..14; many: n % 10 = 0 or n % 10 = 5..9 or n % 100 = 11..14one: n % 10 = 1 \
and n % 100 != 11; two: n = 2; few: n != 2 and n % 10 = 2..9 and n % 100 != 11..19; many: f != 0one: i % 10 = \
1 and i % 100 != 11; two: i % 10 = 2 and i % 100 != 12; many: i % 10 = 7,8 and i % 100 != 17,18one: v = 0 and \
i % 10 = 1; two: v = 0 and i % 10 = 2; few: v = 0 and i % 100 = 0,20,40,60,80; many: v != 0one: n % 10 = 1 and\
\x20n % 100 != 11; two: n % 10 = 2 and n % 100 != 12; few: n % 10 = 3 and n % 100 != 13one: v = 0 and i % 100 \
= 1; two: v = 0 and i % 100 = 2; few: v = 0 and i % 100 = 3..4 or v != 0one: n % 10 = 1 and n % 100 != 11..19;\
\x20few: n % 10 = 2..9 and n % 100 != 11..19; many: f != 0many: e = 0 and i != 0 and i % 1000000 = 0 and v = 0\
\x20or e != 0..5; one: i = 1 and v = 0one: n = 1..4 or n % 100 = 1..4,21..24,41..44,61..64,81..84; many: n = 5\
\x20or n % 100 = 5one: v = 0 and i = 1,2,3 or v = 0 and i % 10 != 4,6,9 or v != 0 and f % 10 != 4,6,9zero: n =\
\x200; one: n = 1; two: n = 2; few: n % 100 = 3..10; many: n % 100 = 11..99many: e = 0 and i != 0 and i % 1000\
000 = 0 and v = 0 or e != 0..5; one: i = 0..1many: e = 0 and i != 0 and i % 1000000 = 0 and v = 0 or e != 0..5\
; one: i = 0,1many: e = 0 and i != 0 and i % 1000000 = 0 and v = 0 or e != 0..5; one: n = 1one: n = 1; two: n \
= 2; few: n = 0 or n % 100 = 3..10; many: n % 100 = 11..19one: t = 0 and i % 10 = 1 and i % 100 != 11 or t % 1\
0 = 1 and t % 100 != 11one: i = 1 and v = 0; few: v != 0 or n = 0 or n != 1 and n % 100 = 1..19zero: n = 0,7,8\
,9; one: n = 1; two: n = 2; few: n = 3,4; many: n = 5,6one: i = 1 and v = 0 or i = 0 and v != 0; two: i = 2 an\
d v = 0one: n = 1,5,7,8,9,10; two: n = 2,3; few: n = 4; many: n = 6zero: n = 0; one: n = 1; two: n = 2; few: n\
\x20= 3; many: n = 6one: i = 1 and v = 0; few: i = 2..4 and v = 0; many: v != 0one: n = 1,5,7..9; two: n = 2,3\
; few: n = 4; many: n = 6many: n % 10 = 6 or n % 10 = 9 or n % 10 = 0 and n != 0one: n = 1; two: n = 2; few: n\
\x20= 3..6; many: n = 7..10one: i = 1; many: i = 0 or i % 100 = 2..20,40,60,80one: n = 1,11; two: n = 2,12; fe\
w: n = 3..10,13..19one: n = 1; two: n = 2,3; few: n = 4; many: n = 6one: n = 1; many: n % 10 = 4 and n % 100 !\
= 14one: n = 1,11; two: n = 2,12; few: n = 3,13zero: i = 0; one: i = 1; few: i = 2,3,4,5,6few: n % 10 = 2,3 an\
d n % 100 != 12,13one: n % 10 = 1,2 and n % 100 != 11,12one: n = 1,3; two: n = 2; few: n = 4zero: n = 0; one: \
i = 0,1 and n != 0one: i = 0 or n = 1; few: n = 2..10one: n = 1 or t != 0 and i = 0,1one: n = 0,1 or i = 0 and\
\x20f = 1many: n = 11,8,80..89,800..899few: n % 10 = 6,9 or n = 10one: n = 0..1 or n = 11..99many: n = 11,8,80\
,800other:";

/// The rules of the texts.
#[rattlefmt::skip]
pub static PLURAL_RULE_ROWS: [RuleRow; 139] = [
    RuleRow { category: Other, alternatives: TableRange(0, 0) },
    RuleRow { category: One, alternatives: TableRange(0, 1) },
    RuleRow { category: One, alternatives: TableRange(1, 2) },
    RuleRow { category: One, alternatives: TableRange(2, 4) },
    RuleRow { category: Zero, alternatives: TableRange(4, 5) },
    RuleRow { category: One, alternatives: TableRange(0, 1) },
    RuleRow { category: Two, alternatives: TableRange(5, 6) },
    RuleRow { category: Few, alternatives: TableRange(6, 7) },
    RuleRow { category: Many, alternatives: TableRange(7, 8) },
    RuleRow { category: One, alternatives: TableRange(8, 9) },
    RuleRow { category: Two, alternatives: TableRange(9, 10) },
    RuleRow { category: Few, alternatives: TableRange(10, 11) },
    RuleRow { category: Many, alternatives: TableRange(11, 12) },
    RuleRow { category: One, alternatives: TableRange(12, 13) },
    RuleRow { category: One, alternatives: TableRange(13, 15) },
    RuleRow { category: Few, alternatives: TableRange(15, 17) },
    RuleRow { category: Many, alternatives: TableRange(17, 20) },
    RuleRow { category: One, alternatives: TableRange(20, 21) },
    RuleRow { category: Few, alternatives: TableRange(21, 22) },
    RuleRow { category: Many, alternatives: TableRange(22, 25) },
    RuleRow { category: Few, alternatives: TableRange(25, 26) },
    RuleRow { category: Zero, alternatives: TableRange(2, 3) },
    RuleRow { category: One, alternatives: TableRange(26, 27) },
    RuleRow { category: Few, alternatives: TableRange(27, 28) },
    RuleRow { category: One, alternatives: TableRange(28, 29) },
    RuleRow { category: Two, alternatives: TableRange(29, 30) },
    RuleRow { category: Few, alternatives: TableRange(30, 31) },
    RuleRow { category: Many, alternatives: TableRange(31, 32) },
    RuleRow { category: One, alternatives: TableRange(32, 34) },
    RuleRow { category: Few, alternatives: TableRange(34, 36) },
    RuleRow { category: Many, alternatives: TableRange(36, 38) },
    RuleRow { category: One, alternatives: TableRange(12, 13) },
    RuleRow { category: One, alternatives: TableRange(38, 39) },
    RuleRow { category: Two, alternatives: TableRange(5, 6) },
    RuleRow { category: Few, alternatives: TableRange(10, 11) },
    RuleRow { category: One, alternatives: TableRange(39, 42) },
    RuleRow { category: One, alternatives: TableRange(12, 13) },
    RuleRow { category: Few, alternatives: TableRange(42, 43) },
    RuleRow { category: Many, alternatives: TableRange(43, 44) },
    RuleRow { category: Zero, alternatives: TableRange(4, 5) },
    RuleRow { category: One, alternatives: TableRange(0, 1) },
    RuleRow { category: Two, alternatives: TableRange(5, 6) },
    RuleRow { category: Few, alternatives: TableRange(44, 45) },
    RuleRow { category: Many, alternatives: TableRange(11, 12) },
    RuleRow { category: Zero, alternatives: TableRange(45, 46) },
    RuleRow { category: One, alternatives: TableRange(0, 1) },
    RuleRow { category: Two, alternatives: TableRange(5, 6) },
    RuleRow { category: Few, alternatives: TableRange(46, 47) },
    RuleRow { category: Many, alternatives: TableRange(47, 48) },
    RuleRow { category: One, alternatives: TableRange(48, 50) },
    RuleRow { category: One, alternatives: TableRange(50, 52) },
    RuleRow { category: Two, alternatives: TableRange(52, 54) },
    RuleRow { category: Few, alternatives: TableRange(54, 56) },
    RuleRow { category: One, alternatives: TableRange(20, 21) },
    RuleRow { category: Two, alternatives: TableRange(56, 57) },
    RuleRow { category: Few, alternatives: TableRange(57, 58) },
    RuleRow { category: Many, alternatives: TableRange(36, 38) },
    RuleRow { category: One, alternatives: TableRange(0, 1) },
    RuleRow { category: One, alternatives: TableRange(58, 59) },
    RuleRow { category: Many, alternatives: TableRange(36, 38) },
    RuleRow { category: One, alternatives: TableRange(58, 59) },
    RuleRow { category: One, alternatives: TableRange(0, 1) },
    RuleRow { category: Two, alternatives: TableRange(5, 6) },
    RuleRow { category: Few, alternatives: TableRange(59, 60) },
    RuleRow { category: Many, alternatives: TableRange(60, 61) },
    RuleRow { category: One, alternatives: TableRange(61, 62) },
    RuleRow { category: Two, alternatives: TableRange(62, 63) },
    RuleRow { category: Few, alternatives: TableRange(63, 64) },
    RuleRow { category: One, alternatives: TableRange(61, 62) },
    RuleRow { category: Two, alternatives: TableRange(62, 63) },
    RuleRow { category: Few, alternatives: TableRange(64, 65) },
    RuleRow { category: One, alternatives: TableRange(0, 1) },
    RuleRow { category: Two, alternatives: TableRange(9, 10) },
    RuleRow { category: Few, alternatives: TableRange(10, 11) },
    RuleRow { category: Many, alternatives: TableRange(11, 12) },
    RuleRow { category: One, alternatives: TableRange(65, 66) },
    RuleRow { category: Two, alternatives: TableRange(66, 67) },
    RuleRow { category: Few, alternatives: TableRange(67, 68) },
    RuleRow { category: Many, alternatives: TableRange(43, 44) },
    RuleRow { category: One, alternatives: TableRange(68, 70) },
    RuleRow { category: Two, alternatives: TableRange(70, 71) },
    RuleRow { category: One, alternatives: TableRange(71, 72) },
    RuleRow { category: One, alternatives: TableRange(72, 74) },
    RuleRow { category: Many, alternatives: TableRange(74, 75) },
    RuleRow { category: One, alternatives: TableRange(26, 27) },
    RuleRow { category: Many, alternatives: TableRange(75, 77) },
    RuleRow { category: Many, alternatives: TableRange(77, 80) },
    RuleRow { category: Zero, alternatives: TableRange(4, 5) },
    RuleRow { category: One, alternatives: TableRange(0, 1) },
    RuleRow { category: Two, alternatives: TableRange(80, 83) },
    RuleRow { category: Few, alternatives: TableRange(83, 84) },
    RuleRow { category: Many, alternatives: TableRange(84, 85) },
    RuleRow { category: One, alternatives: TableRange(85, 87) },
    RuleRow { category: Many, alternatives: TableRange(87, 89) },
    RuleRow { category: Zero, alternatives: TableRange(4, 5) },
    RuleRow { category: One, alternatives: TableRange(89, 90) },
    RuleRow { category: Many, alternatives: TableRange(90, 91) },
    RuleRow { category: One, alternatives: TableRange(91, 92) },
    RuleRow { category: Few, alternatives: TableRange(92, 93) },
    RuleRow { category: Many, alternatives: TableRange(93, 94) },
    RuleRow { category: Zero, alternatives: TableRange(94, 97) },
    RuleRow { category: One, alternatives: TableRange(97, 100) },
    RuleRow { category: One, alternatives: TableRange(100, 101) },
    RuleRow { category: Two, alternatives: TableRange(101, 102) },
    RuleRow { category: Many, alternatives: TableRange(102, 103) },
    RuleRow { category: One, alternatives: TableRange(12, 13) },
    RuleRow { category: Few, alternatives: TableRange(103, 106) },
    RuleRow { category: One, alternatives: TableRange(0, 1) },
    RuleRow { category: Two, alternatives: TableRange(5, 6) },
    RuleRow { category: Few, alternatives: TableRange(106, 108) },
    RuleRow { category: Many, alternatives: TableRange(95, 96) },
    RuleRow { category: One, alternatives: TableRange(85, 86) },
    RuleRow { category: One, alternatives: TableRange(108, 109) },
    RuleRow { category: Two, alternatives: TableRange(9, 10) },
    RuleRow { category: Few, alternatives: TableRange(10, 11) },
    RuleRow { category: Many, alternatives: TableRange(11, 12) },
    RuleRow { category: One, alternatives: TableRange(12, 13) },
    RuleRow { category: Few, alternatives: TableRange(34, 35) },
    RuleRow { category: Many, alternatives: TableRange(109, 112) },
    RuleRow { category: Many, alternatives: TableRange(36, 38) },
    RuleRow { category: One, alternatives: TableRange(112, 113) },
    RuleRow { category: One, alternatives: TableRange(32, 33) },
    RuleRow { category: Few, alternatives: TableRange(34, 35) },
    RuleRow { category: Many, alternatives: TableRange(113, 116) },
    RuleRow { category: One, alternatives: TableRange(20, 21) },
    RuleRow { category: Two, alternatives: TableRange(5, 6) },
    RuleRow { category: Few, alternatives: TableRange(116, 117) },
    RuleRow { category: Many, alternatives: TableRange(93, 94) },
    RuleRow { category: One, alternatives: TableRange(2, 4) },
    RuleRow { category: Few, alternatives: TableRange(117, 118) },
    RuleRow { category: One, alternatives: TableRange(118, 120) },
    RuleRow { category: One, alternatives: TableRange(50, 51) },
    RuleRow { category: Two, alternatives: TableRange(52, 53) },
    RuleRow { category: Few, alternatives: TableRange(120, 122) },
    RuleRow { category: One, alternatives: TableRange(0, 1) },
    RuleRow { category: Many, alternatives: TableRange(122, 123) },
    RuleRow { category: One, alternatives: TableRange(123, 124) },
    RuleRow { category: Few, alternatives: TableRange(124, 126) },
    RuleRow { category: One, alternatives: TableRange(126, 128) },
];

/// The alternatives of rules, as parts of `PLURAL_RELATIONS`.
#[rattlefmt::skip]
pub static PLURAL_ALTERNATIVES: [TableRange; 128] = [
    TableRange(0, 1),
    TableRange(1, 2),
    TableRange(2, 3),
    TableRange(0, 1),
    TableRange(3, 4),
    TableRange(4, 5),
    TableRange(5, 6),
    TableRange(6, 7),
    TableRange(7, 8),
    TableRange(8, 9),
    TableRange(9, 10),
    TableRange(10, 11),
    TableRange(11, 13),
    TableRange(13, 14),
    TableRange(14, 15),
    TableRange(15, 16),
    TableRange(16, 17),
    TableRange(2, 3),
    TableRange(17, 18),
    TableRange(18, 19),
    TableRange(19, 21),
    TableRange(21, 23),
    TableRange(23, 24),
    TableRange(24, 25),
    TableRange(25, 26),
    TableRange(26, 28),
    TableRange(11, 12),
    TableRange(28, 29),
    TableRange(29, 31),
    TableRange(31, 33),
    TableRange(33, 35),
    TableRange(35, 37),
    TableRange(37, 40),
    TableRange(40, 42),
    TableRange(42, 45),
    TableRange(45, 47),
    TableRange(47, 51),
    TableRange(51, 52),
    TableRange(52, 53),
    TableRange(53, 55),
    TableRange(55, 57),
    TableRange(57, 59),
    TableRange(59, 61),
    TableRange(57, 58),
    TableRange(61, 62),
    TableRange(62, 63),
    TableRange(63, 64),
    TableRange(64, 65),
    TableRange(0, 1),
    TableRange(65, 67),
    TableRange(67, 69),
    TableRange(69, 70),
    TableRange(70, 72),
    TableRange(72, 73),
    TableRange(73, 75),
    TableRange(75, 76),
    TableRange(76, 78),
    TableRange(78, 80),
    TableRange(66, 67),
    TableRange(80, 81),
    TableRange(81, 82),
    TableRange(82, 83),
    TableRange(83, 84),
    TableRange(84, 85),
    TableRange(85, 86),
    TableRange(37, 39),
    TableRange(86, 88),
    TableRange(88, 90),
    TableRange(11, 13),
    TableRange(90, 92),
    TableRange(92, 94),
    TableRange(94, 95),
    TableRange(95, 98),
    TableRange(98, 100),
    TableRange(100, 101),
    TableRange(2, 3),
    TableRange(101, 102),
    TableRange(102, 103),
    TableRange(103, 104),
    TableRange(104, 106),
    TableRange(106, 107),
    TableRange(107, 109),
    TableRange(109, 111),
    TableRange(111, 112),
    TableRange(112, 114),
    TableRange(114, 115),
    TableRange(115, 116),
    TableRange(116, 117),
    TableRange(117, 118),
    TableRange(118, 120),
    TableRange(120, 121),
    TableRange(121, 123),
    TableRange(123, 125),
    TableRange(125, 126),
    TableRange(23, 24),
    TableRange(126, 127),
    TableRange(127, 129),
    TableRange(19, 21),
    TableRange(129, 132),
    TableRange(132, 134),
    TableRange(38, 40),
    TableRange(134, 136),
    TableRange(136, 138),
    TableRange(57, 58),
    TableRange(3, 4),
    TableRange(138, 140),
    TableRange(3, 4),
    TableRange(5, 6),
    TableRange(140, 141),
    TableRange(141, 144),
    TableRange(144, 146),
    TableRange(146, 148),
    TableRange(148, 149),
    TableRange(149, 151),
    TableRange(144, 146),
    TableRange(151, 153),
    TableRange(153, 156),
    TableRange(156, 157),
    TableRange(157, 158),
    TableRange(158, 160),
    TableRange(73, 75),
    TableRange(57, 58),
    TableRange(160, 162),
    TableRange(162, 164),
    TableRange(164, 165),
    TableRange(165, 166),
    TableRange(1, 2),
    TableRange(166, 167),
];

/// The relations of alternatives.
#[rattlefmt::skip]
pub static PLURAL_RELATIONS: [RelationRow; 167] = [
    RelationRow { operand: N, modulus: 0, is_equal: true, ranges: TableRange(0, 1) },
    RelationRow { operand: N, modulus: 0, is_equal: true, ranges: TableRange(1, 2) },
    RelationRow { operand: I, modulus: 0, is_equal: true, ranges: TableRange(2, 3) },
    RelationRow { operand: N, modulus: 0, is_equal: true, ranges: TableRange(2, 3) },
    RelationRow { operand: N, modulus: 0, is_equal: true, ranges: TableRange(3, 4) },
    RelationRow { operand: N, modulus: 100, is_equal: true, ranges: TableRange(4, 5) },
    RelationRow { operand: N, modulus: 100, is_equal: true, ranges: TableRange(5, 6) },
    RelationRow { operand: N, modulus: 0, is_equal: true, ranges: TableRange(6, 12) },
    RelationRow { operand: N, modulus: 0, is_equal: true, ranges: TableRange(12, 14) },
    RelationRow { operand: N, modulus: 0, is_equal: true, ranges: TableRange(14, 15) },
    RelationRow { operand: N, modulus: 0, is_equal: true, ranges: TableRange(15, 16) },
    RelationRow { operand: I, modulus: 0, is_equal: true, ranges: TableRange(0, 1) },
    RelationRow { operand: V, modulus: 0, is_equal: true, ranges: TableRange(2, 3) },
    RelationRow { operand: I, modulus: 10, is_equal: true, ranges: TableRange(16, 21) },
    RelationRow { operand: I, modulus: 100, is_equal: true, ranges: TableRange(21, 25) },
    RelationRow { operand: I, modulus: 10, is_equal: true, ranges: TableRange(13, 15) },
    RelationRow { operand: I, modulus: 1000, is_equal: true, ranges: TableRange(25, 34) },
    RelationRow { operand: I, modulus: 10, is_equal: true, ranges: TableRange(15, 16) },
    RelationRow { operand: I, modulus: 100, is_equal: true, ranges: TableRange(34, 37) },
    RelationRow { operand: N, modulus: 10, is_equal: true, ranges: TableRange(0, 1) },
    RelationRow { operand: N, modulus: 100, is_equal: false, ranges: TableRange(37, 38) },
    RelationRow { operand: N, modulus: 10, is_equal: true, ranges: TableRange(38, 39) },
    RelationRow { operand: N, modulus: 100, is_equal: false, ranges: TableRange(39, 40) },
    RelationRow { operand: N, modulus: 10, is_equal: true, ranges: TableRange(2, 3) },
    RelationRow { operand: N, modulus: 10, is_equal: true, ranges: TableRange(40, 41) },
    RelationRow { operand: N, modulus: 100, is_equal: true, ranges: TableRange(41, 42) },
    RelationRow { operand: N, modulus: 10, is_equal: true, ranges: TableRange(12, 14) },
    RelationRow { operand: N, modulus: 100, is_equal: false, ranges: TableRange(42, 44) },
    RelationRow { operand: I, modulus: 0, is_equal: true, ranges: TableRange(44, 49) },
    RelationRow { operand: N, modulus: 10, is_equal: true, ranges: TableRange(0, 1) },
    RelationRow { operand: N, modulus: 100, is_equal: false, ranges: TableRange(49, 52) },
    RelationRow { operand: N, modulus: 10, is_equal: true, ranges: TableRange(3, 4) },
    RelationRow { operand: N, modulus: 100, is_equal: false, ranges: TableRange(52, 55) },
    RelationRow { operand: N, modulus: 10, is_equal: true, ranges: TableRange(55, 57) },
    RelationRow { operand: N, modulus: 100, is_equal: false, ranges: TableRange(57, 60) },
    RelationRow { operand: N, modulus: 0, is_equal: false, ranges: TableRange(2, 3) },
    RelationRow { operand: N, modulus: 1000000, is_equal: true, ranges: TableRange(2, 3) },
    RelationRow { operand: V, modulus: 0, is_equal: true, ranges: TableRange(2, 3) },
    RelationRow { operand: I, modulus: 10, is_equal: true, ranges: TableRange(0, 1) },
    RelationRow { operand: I, modulus: 100, is_equal: false, ranges: TableRange(37, 38) },
    RelationRow { operand: F, modulus: 10, is_equal: true, ranges: TableRange(0, 1) },
    RelationRow { operand: F, modulus: 100, is_equal: false, ranges: TableRange(37, 38) },
    RelationRow { operand: V, modulus: 0, is_equal: true, ranges: TableRange(2, 3) },
    RelationRow { operand: I, modulus: 10, is_equal: true, ranges: TableRange(38, 39) },
    RelationRow { operand: I, modulus: 100, is_equal: false, ranges: TableRange(39, 40) },
    RelationRow { operand: F, modulus: 10, is_equal: true, ranges: TableRange(38, 39) },
    RelationRow { operand: F, modulus: 100, is_equal: false, ranges: TableRange(39, 40) },
    RelationRow { operand: C, modulus: 0, is_equal: true, ranges: TableRange(2, 3) },
    RelationRow { operand: I, modulus: 0, is_equal: false, ranges: TableRange(2, 3) },
    RelationRow { operand: I, modulus: 1000000, is_equal: true, ranges: TableRange(2, 3) },
    RelationRow { operand: V, modulus: 0, is_equal: true, ranges: TableRange(2, 3) },
    RelationRow { operand: C, modulus: 0, is_equal: false, ranges: TableRange(60, 61) },
    RelationRow { operand: N, modulus: 0, is_equal: true, ranges: TableRange(61, 63) },
    RelationRow { operand: V, modulus: 0, is_equal: true, ranges: TableRange(2, 3) },
    RelationRow { operand: I, modulus: 0, is_equal: true, ranges: TableRange(63, 66) },
    RelationRow { operand: V, modulus: 0, is_equal: true, ranges: TableRange(2, 3) },
    RelationRow { operand: I, modulus: 10, is_equal: false, ranges: TableRange(66, 69) },
    RelationRow { operand: V, modulus: 0, is_equal: false, ranges: TableRange(2, 3) },
    RelationRow { operand: F, modulus: 10, is_equal: false, ranges: TableRange(66, 69) },
    RelationRow { operand: I, modulus: 0, is_equal: true, ranges: TableRange(38, 39) },
    RelationRow { operand: V, modulus: 0, is_equal: true, ranges: TableRange(2, 3) },
    RelationRow { operand: N, modulus: 0, is_equal: true, ranges: TableRange(13, 14) },
    RelationRow { operand: N, modulus: 0, is_equal: true, ranges: TableRange(69, 73) },
    RelationRow { operand: N, modulus: 0, is_equal: true, ranges: TableRange(13, 15) },
    RelationRow { operand: N, modulus: 0, is_equal: true, ranges: TableRange(47, 49) },
    RelationRow { operand: T, modulus: 0, is_equal: false, ranges: TableRange(2, 3) },
    RelationRow { operand: I, modulus: 0, is_equal: true, ranges: TableRange(73, 75) },
    RelationRow { operand: V, modulus: 0, is_equal: true, ranges: TableRange(2, 3) },
    RelationRow { operand: I, modulus: 100, is_equal: true, ranges: TableRange(0, 1) },
    RelationRow { operand: F, modulus: 100, is_equal: true, ranges: TableRange(0, 1) },
    RelationRow { operand: V, modulus: 0, is_equal: true, ranges: TableRange(2, 3) },
    RelationRow { operand: I, modulus: 100, is_equal: true, ranges: TableRange(3, 4) },
    RelationRow { operand: F, modulus: 100, is_equal: true, ranges: TableRange(3, 4) },
    RelationRow { operand: V, modulus: 0, is_equal: true, ranges: TableRange(2, 3) },
    RelationRow { operand: I, modulus: 100, is_equal: true, ranges: TableRange(55, 56) },
    RelationRow { operand: F, modulus: 100, is_equal: true, ranges: TableRange(55, 56) },
    RelationRow { operand: N, modulus: 10, is_equal: true, ranges: TableRange(3, 4) },
    RelationRow { operand: N, modulus: 100, is_equal: false, ranges: TableRange(42, 43) },
    RelationRow { operand: N, modulus: 10, is_equal: true, ranges: TableRange(13, 14) },
    RelationRow { operand: N, modulus: 100, is_equal: false, ranges: TableRange(43, 44) },
    RelationRow { operand: N, modulus: 0, is_equal: true, ranges: TableRange(75, 76) },
    RelationRow { operand: N, modulus: 0, is_equal: true, ranges: TableRange(76, 77) },
    RelationRow { operand: N, modulus: 0, is_equal: true, ranges: TableRange(77, 79) },
    RelationRow { operand: N, modulus: 0, is_equal: true, ranges: TableRange(79, 81) },
    RelationRow { operand: N, modulus: 0, is_equal: true, ranges: TableRange(81, 83) },
    RelationRow { operand: N, modulus: 0, is_equal: true, ranges: TableRange(83, 85) },
    RelationRow { operand: V, modulus: 0, is_equal: true, ranges: TableRange(2, 3) },
    RelationRow { operand: I, modulus: 10, is_equal: true, ranges: TableRange(3, 4) },
    RelationRow { operand: V, modulus: 0, is_equal: true, ranges: TableRange(2, 3) },
    RelationRow { operand: I, modulus: 100, is_equal: true, ranges: TableRange(85, 90) },
    RelationRow { operand: I, modulus: 0, is_equal: true, ranges: TableRange(2, 3) },
    RelationRow { operand: V, modulus: 0, is_equal: false, ranges: TableRange(2, 3) },
    RelationRow { operand: I, modulus: 0, is_equal: true, ranges: TableRange(3, 4) },
    RelationRow { operand: V, modulus: 0, is_equal: true, ranges: TableRange(2, 3) },
    RelationRow { operand: N, modulus: 0, is_equal: true, ranges: TableRange(6, 8) },
    RelationRow { operand: T, modulus: 0, is_equal: true, ranges: TableRange(2, 3) },
    RelationRow { operand: I, modulus: 10, is_equal: true, ranges: TableRange(0, 1) },
    RelationRow { operand: I, modulus: 100, is_equal: false, ranges: TableRange(37, 38) },
    RelationRow { operand: T, modulus: 10, is_equal: true, ranges: TableRange(0, 1) },
    RelationRow { operand: T, modulus: 100, is_equal: false, ranges: TableRange(37, 38) },
    RelationRow { operand: N, modulus: 0, is_equal: true, ranges: TableRange(90, 94) },
    RelationRow { operand: I, modulus: 100, is_equal: true, ranges: TableRange(94, 98) },
    RelationRow { operand: N, modulus: 10, is_equal: true, ranges: TableRange(15, 16) },
    RelationRow { operand: N, modulus: 10, is_equal: true, ranges: TableRange(10, 11) },
    RelationRow { operand: N, modulus: 10, is_equal: true, ranges: TableRange(2, 3) },
    RelationRow { operand: N, modulus: 0, is_equal: false, ranges: TableRange(2, 3) },
    RelationRow { operand: N, modulus: 100, is_equal: true, ranges: TableRange(98, 103) },
    RelationRow { operand: N, modulus: 1000, is_equal: true, ranges: TableRange(2, 3) },
    RelationRow { operand: N, modulus: 100000, is_equal: true, ranges: TableRange(103, 107) },
    RelationRow { operand: N, modulus: 0, is_equal: false, ranges: TableRange(2, 3) },
    RelationRow { operand: N, modulus: 1000000, is_equal: true, ranges: TableRange(107, 108) },
    RelationRow { operand: N, modulus: 100, is_equal: true, ranges: TableRange(108, 113) },
    RelationRow { operand: N, modulus: 0, is_equal: false, ranges: TableRange(0, 1) },
    RelationRow { operand: N, modulus: 100, is_equal: true, ranges: TableRange(113, 118) },
    RelationRow { operand: N, modulus: 0, is_equal: true, ranges: TableRange(118, 119) },
    RelationRow { operand: N, modulus: 100, is_equal: true, ranges: TableRange(119, 124) },
    RelationRow { operand: N, modulus: 0, is_equal: true, ranges: TableRange(7, 8) },
    RelationRow { operand: N, modulus: 100, is_equal: true, ranges: TableRange(7, 8) },
    RelationRow { operand: I, modulus: 0, is_equal: true, ranges: TableRange(73, 75) },
    RelationRow { operand: N, modulus: 0, is_equal: false, ranges: TableRange(2, 3) },
    RelationRow { operand: N, modulus: 0, is_equal: true, ranges: TableRange(124, 128) },
    RelationRow { operand: N, modulus: 10, is_equal: true, ranges: TableRange(0, 1) },
    RelationRow { operand: N, modulus: 100, is_equal: false, ranges: TableRange(128, 129) },
    RelationRow { operand: N, modulus: 10, is_equal: true, ranges: TableRange(129, 130) },
    RelationRow { operand: N, modulus: 100, is_equal: false, ranges: TableRange(128, 129) },
    RelationRow { operand: F, modulus: 0, is_equal: false, ranges: TableRange(2, 3) },
    RelationRow { operand: N, modulus: 100, is_equal: true, ranges: TableRange(128, 129) },
    RelationRow { operand: V, modulus: 0, is_equal: true, ranges: TableRange(3, 4) },
    RelationRow { operand: F, modulus: 100, is_equal: true, ranges: TableRange(128, 129) },
    RelationRow { operand: V, modulus: 0, is_equal: true, ranges: TableRange(3, 4) },
    RelationRow { operand: F, modulus: 10, is_equal: true, ranges: TableRange(0, 1) },
    RelationRow { operand: F, modulus: 100, is_equal: false, ranges: TableRange(37, 38) },
    RelationRow { operand: V, modulus: 0, is_equal: false, ranges: TableRange(3, 4) },
    RelationRow { operand: F, modulus: 10, is_equal: true, ranges: TableRange(0, 1) },
    RelationRow { operand: I, modulus: 10, is_equal: true, ranges: TableRange(3, 4) },
    RelationRow { operand: I, modulus: 100, is_equal: false, ranges: TableRange(42, 43) },
    RelationRow { operand: I, modulus: 10, is_equal: true, ranges: TableRange(8, 10) },
    RelationRow { operand: I, modulus: 100, is_equal: false, ranges: TableRange(130, 132) },
    RelationRow { operand: N, modulus: 0, is_equal: false, ranges: TableRange(0, 1) },
    RelationRow { operand: N, modulus: 100, is_equal: true, ranges: TableRange(132, 133) },
    RelationRow { operand: N, modulus: 0, is_equal: true, ranges: TableRange(133, 136) },
    RelationRow { operand: V, modulus: 0, is_equal: true, ranges: TableRange(2, 3) },
    RelationRow { operand: I, modulus: 0, is_equal: false, ranges: TableRange(0, 1) },
    RelationRow { operand: I, modulus: 10, is_equal: true, ranges: TableRange(1, 2) },
    RelationRow { operand: V, modulus: 0, is_equal: true, ranges: TableRange(2, 3) },
    RelationRow { operand: I, modulus: 10, is_equal: true, ranges: TableRange(40, 41) },
    RelationRow { operand: V, modulus: 0, is_equal: true, ranges: TableRange(2, 3) },
    RelationRow { operand: I, modulus: 100, is_equal: true, ranges: TableRange(39, 40) },
    RelationRow { operand: I, modulus: 0, is_equal: true, ranges: TableRange(1, 2) },
    RelationRow { operand: V, modulus: 0, is_equal: true, ranges: TableRange(2, 3) },
    RelationRow { operand: I, modulus: 10, is_equal: true, ranges: TableRange(2, 3) },
    RelationRow { operand: V, modulus: 0, is_equal: true, ranges: TableRange(2, 3) },
    RelationRow { operand: I, modulus: 100, is_equal: true, ranges: TableRange(41, 42) },
    RelationRow { operand: N, modulus: 0, is_equal: false, ranges: TableRange(3, 4) },
    RelationRow { operand: N, modulus: 10, is_equal: true, ranges: TableRange(129, 130) },
    RelationRow { operand: N, modulus: 100, is_equal: false, ranges: TableRange(128, 129) },
    RelationRow { operand: N, modulus: 0, is_equal: true, ranges: TableRange(136, 137) },
    RelationRow { operand: N, modulus: 0, is_equal: true, ranges: TableRange(73, 75) },
    RelationRow { operand: I, modulus: 0, is_equal: true, ranges: TableRange(2, 3) },
    RelationRow { operand: F, modulus: 0, is_equal: true, ranges: TableRange(0, 1) },
    RelationRow { operand: N, modulus: 10, is_equal: true, ranges: TableRange(14, 15) },
    RelationRow { operand: N, modulus: 100, is_equal: false, ranges: TableRange(137, 138) },
    RelationRow { operand: N, modulus: 10, is_equal: true, ranges: TableRange(16, 18) },
    RelationRow { operand: N, modulus: 100, is_equal: false, ranges: TableRange(138, 140) },
    RelationRow { operand: N, modulus: 10, is_equal: true, ranges: TableRange(67, 69) },
    RelationRow { operand: N, modulus: 0, is_equal: true, ranges: TableRange(11, 12) },
    RelationRow { operand: N, modulus: 0, is_equal: true, ranges: TableRange(5, 6) },
];

/// The ranges of relations.
#[rattlefmt::skip]
pub static PLURAL_RANGES: [Range; 140] = [
    Range { low: 1, high: 1 },
    Range { low: 0, high: 1 },
    Range { low: 0, high: 0 },
    Range { low: 2, high: 2 },
    Range { low: 3, high: 10 },
    Range { low: 11, high: 99 },
    Range { low: 1, high: 1 },
    Range { low: 5, high: 5 },
    Range { low: 7, high: 7 },
    Range { low: 8, high: 8 },
    Range { low: 9, high: 9 },
    Range { low: 10, high: 10 },
    Range { low: 2, high: 2 },
    Range { low: 3, high: 3 },
    Range { low: 4, high: 4 },
    Range { low: 6, high: 6 },
    Range { low: 1, high: 1 },
    Range { low: 2, high: 2 },
    Range { low: 5, high: 5 },
    Range { low: 7, high: 7 },
    Range { low: 8, high: 8 },
    Range { low: 20, high: 20 },
    Range { low: 50, high: 50 },
    Range { low: 70, high: 70 },
    Range { low: 80, high: 80 },
    Range { low: 100, high: 100 },
    Range { low: 200, high: 200 },
    Range { low: 300, high: 300 },
    Range { low: 400, high: 400 },
    Range { low: 500, high: 500 },
    Range { low: 600, high: 600 },
    Range { low: 700, high: 700 },
    Range { low: 800, high: 800 },
    Range { low: 900, high: 900 },
    Range { low: 40, high: 40 },
    Range { low: 60, high: 60 },
    Range { low: 90, high: 90 },
    Range { low: 11, high: 11 },
    Range { low: 2, high: 4 },
    Range { low: 12, high: 14 },
    Range { low: 5, high: 9 },
    Range { low: 11, high: 14 },
    Range { low: 12, high: 12 },
    Range { low: 13, high: 13 },
    Range { low: 2, high: 2 },
    Range { low: 3, high: 3 },
    Range { low: 4, high: 4 },
    Range { low: 5, high: 5 },
    Range { low: 6, high: 6 },
    Range { low: 11, high: 11 },
    Range { low: 71, high: 71 },
    Range { low: 91, high: 91 },
    Range { low: 12, high: 12 },
    Range { low: 72, high: 72 },
    Range { low: 92, high: 92 },
    Range { low: 3, high: 4 },
    Range { low: 9, high: 9 },
    Range { low: 10, high: 19 },
    Range { low: 70, high: 79 },
    Range { low: 90, high: 99 },
    Range { low: 0, high: 5 },
    Range { low: 1, high: 1 },
    Range { low: 3, high: 3 },
    Range { low: 1, high: 1 },
    Range { low: 2, high: 2 },
    Range { low: 3, high: 3 },
    Range { low: 4, high: 4 },
    Range { low: 6, high: 6 },
    Range { low: 9, high: 9 },
    Range { low: 0, high: 0 },
    Range { low: 7, high: 7 },
    Range { low: 8, high: 8 },
    Range { low: 9, high: 9 },
    Range { low: 0, high: 0 },
    Range { low: 1, high: 1 },
    Range { low: 3, high: 6 },
    Range { low: 7, high: 10 },
    Range { low: 1, high: 1 },
    Range { low: 11, high: 11 },
    Range { low: 2, high: 2 },
    Range { low: 12, high: 12 },
    Range { low: 3, high: 10 },
    Range { low: 13, high: 19 },
    Range { low: 3, high: 3 },
    Range { low: 13, high: 13 },
    Range { low: 0, high: 0 },
    Range { low: 20, high: 20 },
    Range { low: 40, high: 40 },
    Range { low: 60, high: 60 },
    Range { low: 80, high: 80 },
    Range { low: 11, high: 11 },
    Range { low: 8, high: 8 },
    Range { low: 80, high: 80 },
    Range { low: 800, high: 800 },
    Range { low: 2, high: 20 },
    Range { low: 40, high: 40 },
    Range { low: 60, high: 60 },
    Range { low: 80, high: 80 },
    Range { low: 2, high: 2 },
    Range { low: 22, high: 22 },
    Range { low: 42, high: 42 },
    Range { low: 62, high: 62 },
    Range { low: 82, high: 82 },
    Range { low: 1000, high: 20000 },
    Range { low: 40000, high: 40000 },
    Range { low: 60000, high: 60000 },
    Range { low: 80000, high: 80000 },
    Range { low: 100000, high: 100000 },
    Range { low: 3, high: 3 },
    Range { low: 23, high: 23 },
    Range { low: 43, high: 43 },
    Range { low: 63, high: 63 },
    Range { low: 83, high: 83 },
    Range { low: 1, high: 1 },
    Range { low: 21, high: 21 },
    Range { low: 41, high: 41 },
    Range { low: 61, high: 61 },
    Range { low: 81, high: 81 },
    Range { low: 1, high: 4 },
    Range { low: 1, high: 4 },
    Range { low: 21, high: 24 },
    Range { low: 41, high: 44 },
    Range { low: 61, high: 64 },
    Range { low: 81, high: 84 },
    Range { low: 11, high: 11 },
    Range { low: 8, high: 8 },
    Range { low: 80, high: 89 },
    Range { low: 800, high: 899 },
    Range { low: 11, high: 19 },
    Range { low: 2, high: 9 },
    Range { low: 17, high: 17 },
    Range { low: 18, high: 18 },
    Range { low: 1, high: 19 },
    Range { low: 1, high: 1 },
    Range { low: 5, high: 5 },
    Range { low: 7, high: 9 },
    Range { low: 2, high: 10 },
    Range { low: 14, high: 14 },
    Range { low: 11, high: 11 },
    Range { low: 12, high: 12 },
];

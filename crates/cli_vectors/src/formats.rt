//! Formats that are made by calls: the texts of node 20 with ICU 78, in every sink; defaults, and texts of errors.
use decimal_format::{DecimalFormatter, SymbolsError};
use fixed_decimal::{DigitList, DigitStore, PackedDigits, Signed, UnsignedOver, Writeable};
use locale_data::locale;
use number_format::{
    CompactLength, CurrencyCode, CurrencyDisplay, CurrencySign, CurrencyStyle, CurrencyUsage,
    Decimal, DecimalSeparatorDisplay, DigitSettings, ExponentSign, GroupingStrategy,
    NumberFormatter, NumberNotation, NumberOptions, NumberStyle, NumberingSystem, RoundingPriority,
    SignDisplay, TrailingZeros,
};
use std::alloc::Global;
use std::fmt::Display;
use test_support::{displays, fails_without_room, has_text};

/// Whether a value has this text, also by Display, and fails with each sink without room.
fn is_text<T: Writeable + Display>(value: &T, text: &str) -> bool {
    has_text(value, text)
        && displays(value, text.as_bytes())
        && fails_without_room(value, text.as_bytes())
}

fn writes(
    alloc: Global,
    tag: &str,
    options: NumberOptions,
    (number, text): (&str, &str),
) -> Option<bool> {
    let formatter = NumberFormatter::try_new(tag, options).ok()?;
    let number = Decimal::try_from_str(alloc, number).ok()?;
    Some(is_text(&formatter.format(alloc, number).ok()?, text))
}

fn constructors_write(alloc: Global, euro: CurrencyCode) -> Option<bool> {
    let percent = NumberOptions::percent();
    let money = NumberOptions::currency(euro);
    let short = NumberOptions::compact(CompactLength::Short);
    let long = NumberOptions::compact(CompactLength::Long);
    let scientific = NumberOptions::scientific();
    Some(
        writes(alloc, "en", percent, ("0.5", "50%"))?
            && writes(alloc, "de", money, ("1234.565", "1.234,57\u{a0}€"))?
            && writes(alloc, "en", short, ("1234567", "1.2M"))?
            && writes(alloc, "en", long, ("1234567", "1.2 million"))?
            && writes(alloc, "en", scientific, ("12345.6", "1.235E4"))?
            && writes(alloc, "es", short, ("1234567890123456", "1235\u{a0}B"))?,
    )
}

fn changes_write(alloc: Global, euro: CurrencyCode) -> Option<bool> {
    let compact = NumberNotation::Compact(CompactLength::Short);
    let money = NumberOptions::currency(euro).with_notation(compact);
    let arabic = NumberOptions::default().with_numbering_system(NumberingSystem::try_from_str(
        "arab",
    ).ok()?);
    let signed = NumberOptions::default()
        .with_sign_display(SignDisplay::Always)
        .with_grouping(GroupingStrategy::Never);
    let settings = DigitSettings {
        maximum_fraction_digits: Some(1),
        ..DigitSettings::default()
    };
    let Ok(tenths) = NumberOptions::default().with_digit_settings(&settings) else {
        return None;
    };
    Some(
        writes(
            alloc,
            "es",
            money,
            ("1234567890123456", "1235\u{a0}B\u{a0}€"),
        )? && writes(alloc, "en", arabic, ("1234.5", "١٬٢٣٤٫٥"))?
            && writes(alloc, "en", signed, ("1234.5", "+1234.5"))?
            && writes(alloc, "en", tenths, ("0.25", "0.3"))?,
    )
}

fn currency_styles_write(alloc: Global) -> Option<bool> {
    let dollar = CurrencyStyle::new(CurrencyCode::try_from_str("usd").ok()?);
    let accounting = NumberStyle::Currency(dollar.with_sign(CurrencySign::Accounting));
    let francs = CurrencyStyle::new(CurrencyCode::try_from_str("CHF").ok()?);
    let code = NumberStyle::Currency(francs.with_display(CurrencyDisplay::Code));
    let plain = NumberOptions::default();
    Some(
        writes(alloc, "en", plain.with_style(accounting), ("-5", "($5.00)"))?
            && writes(alloc, "en", plain.with_style(code), ("2", "CHF\u{a0}2.00"))?,
    )
}

/// Whether a number over a store has this text in German.
fn is_german<D: DigitStore>(alloc: Global, number: &str, text: &str) -> Option<bool> {
    let formatter = DecimalFormatter::new(locale("de")?, GroupingStrategy::Auto);
    let value = Signed::<UnsignedOver<D>>::try_from_str(alloc, number).ok()?;
    Some(is_text(&formatter.format(&value), text))
}

/// The defaults of ECMA-402; of the sign of an exponent and of the usage of a currency that of ICU.
fn options_have_defaults() -> bool {
    matches!(TrailingZeros::default(), TrailingZeros::Auto)
        && matches!(RoundingPriority::default(), RoundingPriority::Auto)
        && matches!(CurrencyDisplay::default(), CurrencyDisplay::Symbol)
        && matches!(CompactLength::default(), CompactLength::Short)
        && matches!(CurrencyUsage::default(), CurrencyUsage::Standard)
        && matches!(ExponentSign::default(), ExponentSign::Auto)
        && matches!(
            DecimalSeparatorDisplay::default(),
            DecimalSeparatorDisplay::Auto
        )
}

fn symbols_are_displayed() -> bool {
    displays(&SymbolsError::DigitWidths, b"The digits differ in length")
        && displays(
            &SymbolsError::DecimalTooLong,
            b"The decimal separator has more than 255 bytes",
        )
        && displays(
            &SymbolsError::GroupingTooLong,
            b"The grouping separator has more than 255 bytes",
        )
        && displays(
            &SymbolsError::MinusPrefixTooLong,
            b"The prefix of the minus sign has more than 255 bytes",
        )
        && displays(
            &SymbolsError::MinusSuffixTooLong,
            b"The suffix of the minus sign has more than 255 bytes",
        )
        && displays(
            &SymbolsError::PlusPrefixTooLong,
            b"The prefix of the plus sign has more than 255 bytes",
        )
        && displays(
            &SymbolsError::PlusSuffixTooLong,
            b"The suffix of the plus sign has more than 255 bytes",
        )
}

/// Whether formats and options that are made in these ways write the texts of node, and have the defaults of ECMA-402.
pub fn hold(alloc: Global) -> Option<bool> {
    let euro = CurrencyCode::try_from_str("EUR").ok()?;
    Some(
        constructors_write(alloc, euro)?
            && changes_write(alloc, euro)?
            && currency_styles_write(alloc)?
            && is_german::<PackedDigits>(alloc, "-1234567.50", "-1.234.567,50")?
            && is_german::<DigitList>(alloc, "-1234567.50", "-1.234.567,50")?
            && options_have_defaults()
            && symbols_are_displayed(),
    )
}

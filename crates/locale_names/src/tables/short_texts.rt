//! Identifiers of units, and texts between a number and what it counts.
// Written by tools/units/make_tables.py from data of CLDR 48; their license is tools/locales/LICENSE. Do not edit.

/// The texts.
#[rattlefmt::skip]
pub static SHORT_TEXTS: [u8; 2455] = *b"\
\x20/  F\xe1\xbb\x8d \xe1\xba\xb8\xcc\x81vri  a su  al  ba\xc5\x9fyna  biara mu de  dor  dre  je  juohke  kada\
\x20 kiiba  kohta kwa kila  na  nge- n\xc3\xab  n\xc9\xa9 par  pe  per  por  pr.  pro  pur  rupi sa  saben  sa\
pa  w\xc9\x94  \xc3\xa1  \xca\xbbi he  \xce\xb1\xce\xbd\xce\xac  \xd0\xb1\xd0\xb0\xd1\x80\xd0\xbe\xd0\xb8  \
\xd0\xbd\xd0\xb0  \xd1\x82\xd1\x83\xd1\x82\xd0\xb0\xd0\xbc\xd0\xb4  \xd2\xbb\xd3\x99\xd1\x80  \xd7\x9c \xd8\
\xaf\xd8\xb1  \xd9\x81\xd9\x8a  \xd9\x81\xdb\x8c  \xd9\x84\xd9\x83\xd9\x84  \xe0\xa4\xa6\xe0\xa4\xb0  \xe0\xa4\
\xaa\xe0\xa5\x8d\xe0\xa4\xb0\xe0\xa4\xa4\xe0\xa4\xbf  \xe0\xa4\xb9\xe0\xa4\xb0  \xe0\xa6\xaa\xe0\xa7\x8d\xe0\
\xa6\xb0\xe0\xa6\xa4\xe0\xa6\xbf  \xe0\xa8\xaa\xe0\xa9\x8d\xe0\xa8\xb0\xe0\xa8\xa4\xe0\xa9\x80  \xe0\xaa\xaa\
\xe0\xab\x8d\xe0\xaa\xb0\xe0\xaa\xa4\xe0\xaa\xbf  \xe0\xac\xaa\xe0\xad\x8d\xe0\xac\xb0\xe0\xac\xa4\xe0\xac\xbf\
\x20 \xe0\xb2\x97\xe0\xb3\x86  \xe0\xb6\xa7  \xe0\xb6\xb6\xe0\xb7\x90\xe0\xb6\x9c\xe0\xb7\x92\xe0\xb6\xb1\xe0\
\xb7\x8a \xe0\xba\x95\xe0\xbb\x8d\xe0\xbb\x88  \xe1\x80\x90\xe1\x80\xb1\xe1\x82\x83\xe1\x82\x87  \xe1\x80\x9c\
\xe1\x80\xbb\xe1\x80\xbe\xe1\x80\x84\xe1\x80\xba  \xe1\x89\xa0 \xe1\x8a\xa0\xe1\x89\xa5  \xe1\x8e\xbe\xe1\x8e\
\xbf  \xf0\x91\x84\x9b\xf0\x91\x84\xb3\xf0\x91\x84\xa2\xf0\x91\x84\xa7\xf0\x91\x84\x96\xf0\x91\x84\xa8  \xf0\
\x9e\xa4\xb2\xf0\x9e\xa4\xa3\xf0\x9e\xa4\xab\xf0\x9e\xa4\xaa /accelerationacre-footanglearc-minutearc-secondar\
eaastronomical-unitatmospherebarrelbeaufortbecquerelbritish-thermal-unit-itbu-jpbushelcalorie-itcandelacaratce\
lsiuscentilitercenturychainchoconcentrconsumptioncoulombcubic-centimetercubic-footcubic-inchcubic-kilometercub\
ic-metercubic-milecubic-yardcup-imperialcup-jpcup-metricdaltondaydecadedecimeterdegreedessert-spoon-imperialdi\
gitaldot-per-centimeterdot-per-inchdramdropdunamdurationearth-massearth-radiuselectricelectronvoltenergyfahren\
heitfaradfathomfluid-ounce-imperialfluid-ounce-metricfoodcaloriefortnightfrequencyfunfurlongg-forcegasoline-en\
ergy-densitygigabitgigabytegigahertzgigawattgraingraphicsgrayhectarehectoliterhectopascalhenryhorsepowerinch-o\
fhgitemjiggerjo-jpkaratkatalkelvinkenkilobitkilobytekilocaloriekilogram-forcekilohertzkilojoulekilometer-per-h\
ourkilopascalkilowatt-hour-per-100-kilometerknotkokukosajilight-speedlight-yearliter-per-100-kilometerliter-pe\
r-kilometerlumenluxmagneticmegabitmegabytemegahertzmegalitermegapascalmegapixelmegawattmeter-per-secondmeter-p\
er-square-secondmicrogrammicrometermicrosecondmile-per-gallon-imperialmile-per-hourmile-scandinavianmilliamper\
emillibarmilligram-ofglucose-per-decilitermillilitermillimeter-ofhgmillimole-per-litermillisecondmilliwattmole\
monthnanometernanosecondnautical-milenewton-meterofglucoseohmounce-troyparsecpart-per-1e6part-per-1e9percentpe\
rmillepermyriadpetabytepicometerpinchpint-imperialpint-metricpixel-per-centimeterpixel-per-inchpo pointpound-f\
orce-footpound-force-per-square-inchpressurequart-imperialquarterrankinerevolutionri-jprinrodsaise-jpshaku-clo\
thshaku-lengthsiemenssievertslugsolar-luminositysolar-masssolar-radiussquare-centimetersquare-footsquare-kilom\
etersquare-metersquare-milesquare-yardsteradianstonesuntablespoonteaspoontemperatureterabitterabyteteslatherm-\
usto-jptonnetorquevolumeweberweek\xc2\xa0\xe0\xa6\xa4 \xe0\xa6\xaa\xe0\xa7\x8d\xe0\xa7\xb0\xe0\xa6\xa4\xe0\xa6\
\xbf \xe0\xb2\xaa\xe0\xb3\x8d\xe0\xb2\xb0\xe0\xb2\xa4\xe0\xb2\xbf \xe0\xb8\x95\xe0\xb9\x88\xe0\xb8\xad\xe1\x80\
\x90\xe1\x80\x85\xe1\x80\xba\xe2\x80\x8b \xe1\x9e\x80\xe1\x9f\x92\xe1\x9e\x93\xe1\x9e\xbb\xe1\x9e\x84\xe2\x80\
\x8b\xe1\x9e\x98\xe1\x9e\xbd\xe1\x9e\x99\xe2\x80\x8b \xe2\x80\xaf\xe6\xaf\x8e\xe6\xaf\x8f \xeb\x8b\xb9 ";

// The names of records by their numbers. Made by tools/names.py.
pub const ACMOD: u8 = 0;

pub const ADCONVTYP: u8 = 1;

pub const ADCONVTYP2: u8 = 2;

pub const ADDBSI: u8 = 3;

pub const ADDBSIE: u8 = 4;

pub const ADDBSIL: u8 = 5;

pub const ADDCHE: u8 = 6;

pub const ADDSPCHDAT1E: u8 = 7;

pub const ADDSPCHDATE: u8 = 8;

pub const AHTE: u8 = 9;

pub const AUDPRODI2E: u8 = 10;

pub const AUDPRODIE: u8 = 11;

pub const AUXBITS: u8 = 12;

pub const AUXDATAE: u8 = 13;

pub const AUXDATAL: u8 = 14;

pub const BAIE: u8 = 15;

pub const BAMODE: u8 = 16;

pub const BLKFSNROFFST: u8 = 17;

pub const BLKID: u8 = 18;

pub const BLKMIXCFGINFO: u8 = 19;

pub const BLKMIXCFGINFOE: u8 = 20;

pub const BLKSTRTINFO: u8 = 21;

pub const BLKSTRTINFOE: u8 = 22;

pub const BLKSW: u8 = 23;

pub const BLKSWE: u8 = 24;

pub const BSID: u8 = 25;

pub const BSMOD: u8 = 26;

pub const CHAHTINU: u8 = 27;

pub const CHANMAP: u8 = 28;

pub const CHANMAPE: u8 = 29;

pub const CHBWCOD: u8 = 30;

pub const CHEXPSTR: u8 = 31;

pub const CHINCPL: u8 = 32;

pub const CHINSPX: u8 = 33;

pub const CHINSPXATTEN: u8 = 34;

pub const CHINTRANSPROC: u8 = 35;

pub const COMPR: u8 = 36;

pub const COMPR2: u8 = 37;

pub const COMPR2E: u8 = 38;

pub const COMPRE: u8 = 39;

pub const CONVEXPSTR: u8 = 40;

pub const CONVEXPSTRE: u8 = 41;

pub const CONVSNROFFST: u8 = 42;

pub const CONVSNROFFSTE: u8 = 43;

pub const CONVSYNC: u8 = 44;

pub const COPYRIGHTB: u8 = 45;

pub const CPLABSEXP: u8 = 46;

pub const CPLAHTINU: u8 = 47;

pub const CPLBEGF: u8 = 48;

pub const CPLBNDSTRC: u8 = 49;

pub const CPLBNDSTRCE: u8 = 50;

pub const CPLCOE: u8 = 51;

pub const CPLCOEXP: u8 = 52;

pub const CPLCOMANT: u8 = 53;

pub const CPLDELTBA: u8 = 54;

pub const CPLDELTBAE: u8 = 55;

pub const CPLDELTLEN: u8 = 56;

pub const CPLDELTNSEG: u8 = 57;

pub const CPLDELTOFFST: u8 = 58;

pub const CPLENDF: u8 = 59;

pub const CPLEXPS: u8 = 60;

pub const CPLEXPSTR: u8 = 61;

pub const CPLFGAINCOD: u8 = 62;

pub const CPLFLEAK: u8 = 63;

pub const CPLFSNROFFST: u8 = 64;

pub const CPLINU: u8 = 65;

pub const CPLLEAKE: u8 = 66;

pub const CPLSLEAK: u8 = 67;

pub const CPLSTRE: u8 = 68;

pub const CRC2: u8 = 69;

pub const CSNROFFST: u8 = 70;

pub const DBAFLDE: u8 = 71;

pub const DBPBCOD: u8 = 72;

pub const DELTBA: u8 = 73;

pub const DELTBAE: u8 = 74;

pub const DELTBAIE: u8 = 75;

pub const DELTLEN: u8 = 76;

pub const DELTNSEG: u8 = 77;

pub const DELTOFFST: u8 = 78;

pub const DHEADPHONMOD: u8 = 79;

pub const DIALNORM: u8 = 80;

pub const DIALNORM2: u8 = 81;

pub const DITHFLAG: u8 = 82;

pub const DITHFLAGE: u8 = 83;

pub const DMIXMOD: u8 = 84;

pub const DMIXSCL: u8 = 85;

pub const DRCSRC: u8 = 86;

pub const DSUREXMOD: u8 = 87;

pub const DSURMOD: u8 = 88;

pub const DYNRNG: u8 = 89;

pub const DYNRNG2: u8 = 90;

pub const DYNRNG2E: u8 = 91;

pub const DYNRNGE: u8 = 92;

pub const ECPLINU: u8 = 93;

pub const ENCINFO: u8 = 94;

pub const EXPS_CH: u8 = 95;

pub const EXPS_CH_0: u8 = 96;

pub const EXPSTRE: u8 = 97;

pub const EXTPGMAUX1SCL: u8 = 98;

pub const EXTPGMAUX2SCL: u8 = 99;

pub const EXTPGMCSCL: u8 = 100;

pub const EXTPGMLFESCL: u8 = 101;

pub const EXTPGMLSCL: u8 = 102;

pub const EXTPGMLSSCL: u8 = 103;

pub const EXTPGMRSCL: u8 = 104;

pub const EXTPGMRSSCL: u8 = 105;

pub const EXTPGMSCL: u8 = 106;

pub const EXTPGMSCLE: u8 = 107;

pub const FDCYCOD: u8 = 108;

pub const FGAINCOD: u8 = 109;

pub const FGAINCODE: u8 = 110;

pub const FLOORCOD: u8 = 111;

pub const FRMCHEXPSTR: u8 = 112;

pub const FRMCPLEXPSTR: u8 = 113;

pub const FRMCSNROFFST: u8 = 114;

pub const FRMFGAINCODE: u8 = 115;

pub const FRMFSNROFFST: u8 = 116;

pub const FRMMIXCFGINFOE: u8 = 117;

pub const FRMSIZ: u8 = 118;

pub const FRMSIZECOD: u8 = 119;

pub const FSCOD: u8 = 120;

pub const FSNROFFST: u8 = 121;

pub const GAINRNG: u8 = 122;

pub const INFOMDATE: u8 = 123;

pub const LFEAHTINU: u8 = 124;

pub const LFEEXPS: u8 = 125;

pub const LFEEXPS_0: u8 = 126;

pub const LFEEXPSTR: u8 = 127;

pub const LFEFGAINCOD: u8 = 128;

pub const LFEFSNROFFST: u8 = 129;

pub const LFEMIXLEVCOD: u8 = 130;

pub const LFEMIXLEVCODE: u8 = 131;

pub const LFEON: u8 = 132;

pub const LOROCMIXLEV: u8 = 133;

pub const LOROSURMIXLEV: u8 = 134;

pub const LTRTCMIXLEV: u8 = 135;

pub const LTRTSURMIXLEV: u8 = 136;

pub const MANTISSAS: u8 = 137;

pub const MIXDATA: u8 = 138;

pub const MIXDATA2E: u8 = 139;

pub const MIXDATA3E: u8 = 140;

pub const MIXDEF: u8 = 141;

pub const MIXDEFLEN: u8 = 142;

pub const MIXLEVEL: u8 = 143;

pub const MIXLEVEL2: u8 = 144;

pub const MIXMDATE: u8 = 145;

pub const MSTRCPLCO: u8 = 146;

pub const MSTRSPXCO: u8 = 147;

pub const NUMBLKSCOD: u8 = 148;

pub const ORIGBS: u8 = 149;

pub const PANINFO: u8 = 150;

pub const PANINFO2: u8 = 151;

pub const PANINFO2E: u8 = 152;

pub const PANINFOE: u8 = 153;

pub const PANMEAN: u8 = 154;

pub const PANMEAN2: u8 = 155;

pub const PGMSCL: u8 = 156;

pub const PGMSCL2: u8 = 157;

pub const PGMSCL2E: u8 = 158;

pub const PGMSCLE: u8 = 159;

pub const PHSFLG: u8 = 160;

pub const PHSFLGINU: u8 = 161;

pub const PREMIXCMPSCL: u8 = 162;

pub const PREMIXCMPSEL: u8 = 163;

pub const REMATFLG: u8 = 164;

pub const REMATSTR: u8 = 165;

pub const ROOMTYP: u8 = 166;

pub const ROOMTYP2: u8 = 167;

pub const SCALE_EXISTS: u8 = 168;

pub const SDCYCOD: u8 = 169;

pub const SGAINCOD: u8 = 170;

pub const SKIPFLD: u8 = 171;

pub const SKIPFLDE: u8 = 172;

pub const SKIPL: u8 = 173;

pub const SKIPLE: u8 = 174;

pub const SNROFFSTE: u8 = 175;

pub const SNROFFSTSTR: u8 = 176;

pub const SOURCEFSCOD: u8 = 177;

pub const SPCHAN1ATT: u8 = 178;

pub const SPCHAN2ATT: u8 = 179;

pub const SPCHDAT: u8 = 180;

pub const SPCHDAT1: u8 = 181;

pub const SPCHDAT2: u8 = 182;

pub const SPXATTENCOD: u8 = 183;

pub const SPXATTENE: u8 = 184;

pub const SPXBEGF: u8 = 185;

pub const SPXBLND: u8 = 186;

pub const SPXBNDSTRC: u8 = 187;

pub const SPXBNDSTRCE: u8 = 188;

pub const SPXCOE: u8 = 189;

pub const SPXCOEXP: u8 = 190;

pub const SPXCOMANT: u8 = 191;

pub const SPXENDF: u8 = 192;

pub const SPXINU: u8 = 193;

pub const SPXSTRE: u8 = 194;

pub const SPXSTRTF: u8 = 195;

pub const STRMTYP: u8 = 196;

pub const SUBSTREAMID: u8 = 197;

pub const SYNCWORD: u8 = 198;

pub const TRANSPROCE: u8 = 199;

pub const TRANSPROCLEN: u8 = 200;

pub const TRANSPROCLOC: u8 = 201;

// All of them, in order.
pub const ALL: [u8; 202] = [
    ACMOD,
    ADCONVTYP,
    ADCONVTYP2,
    ADDBSI,
    ADDBSIE,
    ADDBSIL,
    ADDCHE,
    ADDSPCHDAT1E,
    ADDSPCHDATE,
    AHTE,
    AUDPRODI2E,
    AUDPRODIE,
    AUXBITS,
    AUXDATAE,
    AUXDATAL,
    BAIE,
    BAMODE,
    BLKFSNROFFST,
    BLKID,
    BLKMIXCFGINFO,
    BLKMIXCFGINFOE,
    BLKSTRTINFO,
    BLKSTRTINFOE,
    BLKSW,
    BLKSWE,
    BSID,
    BSMOD,
    CHAHTINU,
    CHANMAP,
    CHANMAPE,
    CHBWCOD,
    CHEXPSTR,
    CHINCPL,
    CHINSPX,
    CHINSPXATTEN,
    CHINTRANSPROC,
    COMPR,
    COMPR2,
    COMPR2E,
    COMPRE,
    CONVEXPSTR,
    CONVEXPSTRE,
    CONVSNROFFST,
    CONVSNROFFSTE,
    CONVSYNC,
    COPYRIGHTB,
    CPLABSEXP,
    CPLAHTINU,
    CPLBEGF,
    CPLBNDSTRC,
    CPLBNDSTRCE,
    CPLCOE,
    CPLCOEXP,
    CPLCOMANT,
    CPLDELTBA,
    CPLDELTBAE,
    CPLDELTLEN,
    CPLDELTNSEG,
    CPLDELTOFFST,
    CPLENDF,
    CPLEXPS,
    CPLEXPSTR,
    CPLFGAINCOD,
    CPLFLEAK,
    CPLFSNROFFST,
    CPLINU,
    CPLLEAKE,
    CPLSLEAK,
    CPLSTRE,
    CRC2,
    CSNROFFST,
    DBAFLDE,
    DBPBCOD,
    DELTBA,
    DELTBAE,
    DELTBAIE,
    DELTLEN,
    DELTNSEG,
    DELTOFFST,
    DHEADPHONMOD,
    DIALNORM,
    DIALNORM2,
    DITHFLAG,
    DITHFLAGE,
    DMIXMOD,
    DMIXSCL,
    DRCSRC,
    DSUREXMOD,
    DSURMOD,
    DYNRNG,
    DYNRNG2,
    DYNRNG2E,
    DYNRNGE,
    ECPLINU,
    ENCINFO,
    EXPS_CH,
    EXPS_CH_0,
    EXPSTRE,
    EXTPGMAUX1SCL,
    EXTPGMAUX2SCL,
    EXTPGMCSCL,
    EXTPGMLFESCL,
    EXTPGMLSCL,
    EXTPGMLSSCL,
    EXTPGMRSCL,
    EXTPGMRSSCL,
    EXTPGMSCL,
    EXTPGMSCLE,
    FDCYCOD,
    FGAINCOD,
    FGAINCODE,
    FLOORCOD,
    FRMCHEXPSTR,
    FRMCPLEXPSTR,
    FRMCSNROFFST,
    FRMFGAINCODE,
    FRMFSNROFFST,
    FRMMIXCFGINFOE,
    FRMSIZ,
    FRMSIZECOD,
    FSCOD,
    FSNROFFST,
    GAINRNG,
    INFOMDATE,
    LFEAHTINU,
    LFEEXPS,
    LFEEXPS_0,
    LFEEXPSTR,
    LFEFGAINCOD,
    LFEFSNROFFST,
    LFEMIXLEVCOD,
    LFEMIXLEVCODE,
    LFEON,
    LOROCMIXLEV,
    LOROSURMIXLEV,
    LTRTCMIXLEV,
    LTRTSURMIXLEV,
    MANTISSAS,
    MIXDATA,
    MIXDATA2E,
    MIXDATA3E,
    MIXDEF,
    MIXDEFLEN,
    MIXLEVEL,
    MIXLEVEL2,
    MIXMDATE,
    MSTRCPLCO,
    MSTRSPXCO,
    NUMBLKSCOD,
    ORIGBS,
    PANINFO,
    PANINFO2,
    PANINFO2E,
    PANINFOE,
    PANMEAN,
    PANMEAN2,
    PGMSCL,
    PGMSCL2,
    PGMSCL2E,
    PGMSCLE,
    PHSFLG,
    PHSFLGINU,
    PREMIXCMPSCL,
    PREMIXCMPSEL,
    REMATFLG,
    REMATSTR,
    ROOMTYP,
    ROOMTYP2,
    SCALE_EXISTS,
    SDCYCOD,
    SGAINCOD,
    SKIPFLD,
    SKIPFLDE,
    SKIPL,
    SKIPLE,
    SNROFFSTE,
    SNROFFSTSTR,
    SOURCEFSCOD,
    SPCHAN1ATT,
    SPCHAN2ATT,
    SPCHDAT,
    SPCHDAT1,
    SPCHDAT2,
    SPXATTENCOD,
    SPXATTENE,
    SPXBEGF,
    SPXBLND,
    SPXBNDSTRC,
    SPXBNDSTRCE,
    SPXCOE,
    SPXCOEXP,
    SPXCOMANT,
    SPXENDF,
    SPXINU,
    SPXSTRE,
    SPXSTRTF,
    STRMTYP,
    SUBSTREAMID,
    SYNCWORD,
    TRANSPROCE,
    TRANSPROCLEN,
    TRANSPROCLOC,
];
